// Laws that hold for all inputs that are cut into packets.
ghost use Rattle.std.specs.Prelude.{ℕ};
ghost use Rattle.pass_loop.specs.Pass.{CutsOnce};
ghost use Rattle.packet_input.specs.Packets.{packets_behind};
ghost use Rattle.ump_words.specs.declared.words.Order.{Order};

use ump_grammar::laws::words_spell_one_packet;
use ump_words::{fronts_are_cut_as_the_stream, one_cutting};

/// An input is cut into its packets in one way (M2-104-UM, message types). A front of the input begins with
/// the same packets.
pub fn packets_are_cut_once()
    ensures { (order : Order) (before : ℕ) → CutsOnce (packets_behind order before) }
{
    one_cutting();
    fronts_are_cut_as_the_stream();
    words_spell_one_packet();
}
