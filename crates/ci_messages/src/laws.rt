// Laws over the definitions alone.
ghost use Rattle.std.specs.Prelude.{◌≡◌, ◌<◌, ◌≤◌, ℕ, List, length, true, None, Result, IsOkAnd};
ghost use Rattle.ci_messages.specs.declared.kind.Kind.{Kind};
ghost use Rattle.ci_messages.specs.declared.view.CiFault.{CiFault};
ghost use Rattle.ci_messages.specs.declared.view.CiView.{CiView};
ghost use Rattle.ci_messages.specs.Messages.{has_row, kind_of, sub_of};
ghost use Rattle.ci_messages.specs.Reading.{CiSpells, IsExclusive, Reads, ci_fault};
ghost use Rattle.ci_messages.specs.Writing.{IsView, SameView, message_bytes};

/// The bytes that `write` writes for a message are an exclusive. If the message's source is below 0FFFFF00,
/// these bytes are read back as the same view.
pub fn written_messages_are_read_again()
    ensures exclusive { (view : CiView) → IsView view → length (message_bytes view) ≤ 512 →
        IsExclusive (message_bytes view) }
    ensures again { (view : CiView) → IsView view → length (message_bytes view) ≤ 512 →
        view.source < 0x0FFFFF00 → (answer : Result CiView CiFault) → Reads (message_bytes view) answer →
        IsOkAnd answer (SameView view) }
{
    messages_spell_one_view();
}

/// The bytes of a message spell at most one view.
pub fn messages_spell_one_view()
    ensures { (message : List ℕ) (one other : CiView) → CiSpells one message → CiSpells other message →
        SameView one other }
{}

/// If a view is read from an exclusive, its numbers fit their bytes, and the bytes that it borrows are data
/// bytes.
pub fn views_that_are_read_fit()
    ensures { (message : List ℕ) (view : CiView) → IsExclusive message → ci_fault message ≡ None →
        CiSpells view message → IsView view }
{}

/// The sub-id of a kind names that kind: for every kind in version 02 and above, and in version 01 for every
/// kind that has fields there.
pub fn sub_ids_tell_their_kinds()
    ensures full { (kind : Kind) (version : ℕ) → 2 ≤ version → kind_of (sub_of kind) version ≡ kind }
    ensures short { (kind : Kind) → has_row (sub_of kind) 1 ≡ true → kind_of (sub_of kind) 1 ≡ kind }
{}
