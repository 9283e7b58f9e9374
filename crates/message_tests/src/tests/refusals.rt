// Refusals, as they are told.
use super::has_text;
use midi_meaning::BadStep;
use std::test::Fail;

#[test]
fn each_refusal_has_its_text(rt: HostRuntime) -> Result<(), Fail> {
    for (bad, text) in [
        (BadStep::DataIncrement, "a data increment cannot be carried"),
        (BadStep::DataDecrement, "a data decrement cannot be carried"),
        (
            BadStep::ExclusiveTooLong,
            "an exclusive is longer than the limit",
        ),
    ] {
        has_text(&rt, rt.alloc(), &bad, text)?;
    }
    Ok(())
}
