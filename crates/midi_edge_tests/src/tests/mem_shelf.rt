// What a shelf fetches, with memory for all that it is asked.
ghost use Rattle.std.specs.Prelude.{◌≡◌, IfOk, None};

use super::fetching::fetches;
use midi_edge::MemShelf;
use outside::OpenFault;
use std::alloc::Global;
use std::test::Fail;

fn add_text(
    texts: &mut Vec<(String, Vec<u8>)>,
    alloc: Global,
    name: &str,
    text: &str,
) -> Result<(), Fail> {
    let name = String::from_str(alloc, name)?;
    let text = Vec::from_slice(alloc, text.as_bytes())?;
    texts.push((name, text))?;
    Ok(())
}

// A shelf with a text of nine bytes, one of three and one of none, and a later text of the first one's name.
fn shelf_of(alloc: Global, fails: &[u64]) -> Result<MemShelf, Fail>
    ensures { IfOk result (λ shelf. shelf.asked ≡ None) }
{
    let fails = Vec::from_slice(alloc, fails)?;
    let mut texts = Vec::new(alloc);
    for (name, text) in [
        ("long", "nine long"),
        ("short", "two"),
        ("empty", ""),
        ("long", "another"),
    ] {
        add_text(&mut texts, alloc, name, text)?;
    }
    Ok(MemShelf::new(texts, fails))
}

// Whether a fetch of at most four bytes, of a shelf that fails at
// these calls, answers so, and these bytes stand then.
fn is_row(
    alloc: Global,
    fails: &[u64],
    name: &str,
    answer: Result<(), OpenFault>,
    bytes: &[u8],
) -> Result<bool, Fail> {
    let mut into = Vec::from_slice(alloc, b"> ")?;
    let mut shelf = shelf_of(alloc, fails)?;
    let fetched = fetches(&mut shelf, name, 4, &mut into, answer, bytes);
    Ok(fetched && shelf.faults() == u64::from(answer.is_err()))
}

#[test]
fn a_text_is_fetched_up_to_the_limit(rt: HostRuntime) -> Result<(), Fail> {
    let alloc = rt.alloc();
    assert!(rt; is_row(alloc, &[], "long", Ok(()), b"> nine")?);
    assert!(rt; is_row(alloc, &[], "short", Ok(()), b"> two")?);
    assert!(rt; is_row(alloc, &[1], "empty", Ok(()), b"> ")?);
    Ok(())
}

#[test]
fn a_missing_name_and_a_listed_call_fail(rt: HostRuntime) -> Result<(), Fail> {
    let alloc = rt.alloc();
    let failed = Err(OpenFault::Failed);
    assert!(rt; is_row(alloc, &[], "lon", failed, b"> ")?);
    assert!(rt; is_row(alloc, &[], "", failed, b"> ")?);
    assert!(rt; is_row(alloc, &[0], "long", failed, b"> ")?);
    Ok(())
}
