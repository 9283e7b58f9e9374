// Writes numbers in decimal digits.
ghost use Rattle.std.specs.Prelude.{◌≡◌, ◌<◌, ◌/◌, ◌%◌, ◌++◌, decimal};
ghost use Rattle.text_lines.specs.ForProofs.Digits.{two_digits};
ghost use Rattle.text_lines.specs.Room.{AddsAtMost, HasRoom, longest_front, longest_number, longest_value};

use crate::line::Line;
use itoa::Buffer;

// The decimal digits of each number below 256, padded with blanks to three bytes, and then the number of
// digits.
#[rattlefmt::skip]
static SMALL_NUMBERS: [u8; 1024] =
    *b"0  \x011  \x012  \x013  \x014  \x015  \x016  \x017  \x01\
      8  \x019  \x0110 \x0211 \x0212 \x0213 \x0214 \x0215 \x02\
      16 \x0217 \x0218 \x0219 \x0220 \x0221 \x0222 \x0223 \x02\
      24 \x0225 \x0226 \x0227 \x0228 \x0229 \x0230 \x0231 \x02\
      32 \x0233 \x0234 \x0235 \x0236 \x0237 \x0238 \x0239 \x02\
      40 \x0241 \x0242 \x0243 \x0244 \x0245 \x0246 \x0247 \x02\
      48 \x0249 \x0250 \x0251 \x0252 \x0253 \x0254 \x0255 \x02\
      56 \x0257 \x0258 \x0259 \x0260 \x0261 \x0262 \x0263 \x02\
      64 \x0265 \x0266 \x0267 \x0268 \x0269 \x0270 \x0271 \x02\
      72 \x0273 \x0274 \x0275 \x0276 \x0277 \x0278 \x0279 \x02\
      80 \x0281 \x0282 \x0283 \x0284 \x0285 \x0286 \x0287 \x02\
      88 \x0289 \x0290 \x0291 \x0292 \x0293 \x0294 \x0295 \x02\
      96 \x0297 \x0298 \x0299 \x02100\x03101\x03102\x03103\x03\
      104\x03105\x03106\x03107\x03108\x03109\x03110\x03111\x03\
      112\x03113\x03114\x03115\x03116\x03117\x03118\x03119\x03\
      120\x03121\x03122\x03123\x03124\x03125\x03126\x03127\x03\
      128\x03129\x03130\x03131\x03132\x03133\x03134\x03135\x03\
      136\x03137\x03138\x03139\x03140\x03141\x03142\x03143\x03\
      144\x03145\x03146\x03147\x03148\x03149\x03150\x03151\x03\
      152\x03153\x03154\x03155\x03156\x03157\x03158\x03159\x03\
      160\x03161\x03162\x03163\x03164\x03165\x03166\x03167\x03\
      168\x03169\x03170\x03171\x03172\x03173\x03174\x03175\x03\
      176\x03177\x03178\x03179\x03180\x03181\x03182\x03183\x03\
      184\x03185\x03186\x03187\x03188\x03189\x03190\x03191\x03\
      192\x03193\x03194\x03195\x03196\x03197\x03198\x03199\x03\
      200\x03201\x03202\x03203\x03204\x03205\x03206\x03207\x03\
      208\x03209\x03210\x03211\x03212\x03213\x03214\x03215\x03\
      216\x03217\x03218\x03219\x03220\x03221\x03222\x03223\x03\
      224\x03225\x03226\x03227\x03228\x03229\x03230\x03231\x03\
      232\x03233\x03234\x03235\x03236\x03237\x03238\x03239\x03\
      240\x03241\x03242\x03243\x03244\x03245\x03246\x03247\x03\
      248\x03249\x03250\x03251\x03252\x03253\x03254\x03255\x03";

// The two digits of each number below 100.
#[rattlefmt::skip]
static DECIMAL_PAIRS: [u8; 200] =
    *b"0001020304050607080910111213141516171819\
      2021222324252627282930313233343536373839\
      4041424344454647484950515253545556575859\
      6061626364656667686970717273747576777879\
      8081828384858687888990919293949596979899";

// Adds a number of at most three digits. Four bytes are always copied.
#[inline(always)]
fn put_small(line: &mut Line, number: u8)
    requires { HasRoom 4 line.old }
    ensures text { line.new ≡ line.old ++ decimal number }
    ensures room { AddsAtMost 3 line.old line.new }
{
    let at = number as usize * 4;
    let digits = [
        SMALL_NUMBERS[at],
        SMALL_NUMBERS[at + 1],
        SMALL_NUMBERS[at + 2],
        SMALL_NUMBERS[at + 3],
    ];
    line.extend_by(&digits, digits[3] as usize);
}

// Adds a number below 100 in two digits.
#[inline(always)]
fn put_two_digits(line: &mut Line, number: u32)
    requires few { number < 100 }
    requires room { HasRoom 2 line.old }
    ensures { line.new ≡ line.old ++ two_digits number }
{
    let at = number as usize * 2;
    line.extend(&[DECIMAL_PAIRS[at], DECIMAL_PAIRS[at + 1]]);
}

// Adds a number below 10,000 in four digits.
#[inline(always)]
fn put_four(line: &mut Line, number: u32)
    requires few { number < 10000 }
    requires room { HasRoom 4 line.old }
    ensures { line.new ≡ line.old ++ two_digits (number / 100) ++ two_digits (number % 100) }
{
    put_two_digits(line, number / 100);
    put_two_digits(line, number % 100);
}

// Adds a number below 10,000 without leading zeros.
#[inline(always)]
fn put_front(line: &mut Line, number: u32)
    requires few { number < 10000 }
    requires room { HasRoom 4 line.old }
    ensures text { line.new ≡ line.old ++ decimal number }
    ensures room { AddsAtMost 4 line.old line.new }
{
    if number < 256 {
        put_small(line, number as u8);
    } else {
        put_small(line, (number / 100) as u8);
        put_two_digits(line, number % 100);
    }
}

// Adds a number below 1,000,000 without leading zeros.
#[inline(always)]
fn put_long_front(line: &mut Line, number: u32)
    requires few { number < 1000000 }
    requires room { HasRoom longest_front line.old }
    ensures text { line.new ≡ line.old ++ decimal number }
    ensures room { AddsAtMost longest_front line.old line.new }
{
    if number < 10_000 {
        put_front(line, number);
    } else {
        put_small(line, (number / 10_000) as u8);
        put_four(line, number % 10_000);
    }
}

// Adds a number of several digits: first the digits before the last four, and then the last four.
#[inline(never)]
fn put_several(line: &mut Line, number: u32)
    requires { HasRoom longest_value line.old }
    ensures text { line.new ≡ line.old ++ decimal number }
    ensures room { AddsAtMost longest_value line.old line.new }
{
    if number < 10_000 {
        put_front(line, number);
    } else {
        put_long_front(line, number / 10_000);
        put_four(line, number % 10_000);
    }
}

/// Adds a number of 32 bits in decimal digits, without leading zeros. Requires room in the 256-byte line for
/// 10 digits, whatever the number is.
#[inline(always)]
pub fn put_number(line: &mut Line, number: u32)
    requires { HasRoom longest_value line.old }
    ensures text { line.new ≡ line.old ++ decimal number }
    ensures room { AddsAtMost longest_value line.old line.new }
{
    if number < 256 {
        put_small(line, number as u8);
    } else {
        put_several(line, number);
    }
}

/// Adds a number in decimal digits, without leading zeros. Requires room in the 256-byte line for 20 digits,
/// as many as the largest number has, whatever the number is.
#[inline(always)]
pub fn put_decimal(line: &mut Line, number: u64)
    requires { HasRoom longest_number line.old }
    ensures text { line.new ≡ line.old ++ decimal number }
    ensures room { AddsAtMost longest_number line.old line.new }
{
    if number <= u64::from(u32::MAX) {
        put_number(line, number as u32);
    } else {
        put_long(line, number);
    }
}

// Adds a number of more than 32 bits.
#[inline(never)]
fn put_long(line: &mut Line, number: u64)
    requires { HasRoom longest_number line.old }
    ensures text { line.new ≡ line.old ++ decimal number }
    ensures room { AddsAtMost longest_number line.old line.new }
{
    let mut buffer = Buffer::new();
    line.extend(buffer.format(number).as_bytes());
}
