// Each rule by the smallest front of a setup that breaks it, and the most blocks and profiles. The rows of
// `worked_rows` tell of values past each border, and of the replies.
use super::{has_text, is_same, is_same_in};
use endpoint_fixtures::DEMO_SETUP;
use function_blocks::*;
use small_types::U4;
use std::alloc::{AllocError, Global};
use std::test::Fail;

// The number of lines of `DEMO_SETUP`.
const LINES: usize = 29;

// The text of the first `count` lines of `DEMO_SETUP`, with one of them replaced.
fn text_of(alloc: Global, count: usize, index: usize, line: &str) -> Result<String, AllocError> {
    let mut text = String::new(alloc);
    for (k, own) in DEMO_SETUP.lines().enumerate() {
        if k < count {
            add_lines(&mut text, if k == index { line } else { own })?;
        }
    }
    Ok(text)
}

// Adds lines, which a slash parts.
fn add_lines(text: &mut String, lines: &str) -> Result<(), AllocError> {
    for line in lines.split(" / ") {
        text.push_str(line)?;
        text.push('\n')?;
    }
    Ok(())
}

fn setup_of(alloc: Global, text: Result<String, AllocError>) -> Result<Setup, SetupFault> {
    match text {
        Ok(text) => Setup::read(alloc, text.as_bytes()),
        Err(_) => Err(SetupFault::NoMemory),
    }
}

// Whether there is a setup, or why not.
fn fault_of(read: Result<Setup, SetupFault>) -> Result<(), SetupFault> {
    match read {
        Ok(_) => Ok(()),
        Err(fault) => Err(fault),
    }
}

// What the first `count` lines are read as.
fn front(alloc: Global, count: usize) -> Result<(), SetupFault> {
    fault_of(setup_of(alloc, text_of(alloc, count, LINES, "")))
}

// Each front lacks all that comes after it, so it breaks all later rules too: the first is reported.
#[test]
fn the_first_missing_key_is_told(rt: HostRuntime) {
    let rules: [u8; 29] = [
        1, 2, 3, 4, 5, 6, 7, 8, 8, 9, 10, 99, 12, 13, 14, 15, 16, 17, 18, 19, 20, 21, 99, 25, 26,
        27, 28, 29, 30,
    ];
    for (count, rule) in rules.iter().enumerate() {
        let expected = if *rule == 99 {
            Ok(())
        } else {
            Err(SetupFault::Field(*rule))
        };
        is_same_in(&rt, &count, &front(rt.alloc(), count), &expected);
    }
    is_same(&rt, &front(rt.alloc(), 29), &Ok(()));
}

// The endpoint of the setup and this many blocks without MIDI-CI, each
// with a name of 91 bytes, and profiles that aren't read.
fn many_blocks(alloc: Global, blocks: usize) -> Result<String, AllocError> {
    let mut text = text_of(alloc, 11, LINES, "")?;
    for _ in 0..blocks {
        add_lines(&mut text, "[[block]]")?;
        add_lines(
            &mut text,
            "active = false\nfirst = 0\ncount = 1\nci = 0\nmuids = []",
        )?;
        add_lines(&mut text, "hint = 0\nmidi1 = 0\ndirection = 1\nsysex8 = 0")?;
        let name =
            "name = \"123456789 123456789 123456789 123456789 123456789 123456789 123456789 123456789 123456789 1\"";
        add_lines(&mut text, name)?;
    }
    Ok(text)
}

fn many_profiles(alloc: Global, profiles: usize) -> Result<String, AllocError> {
    let mut text = text_of(alloc, 22, LINES, "")?;
    for k in 0..profiles {
        add_lines(
            &mut text,
            "[[profile]]\nblock = 0\nplace = \"function\"\non = true",
        )?;
        let line = format!(in alloc; "id = [0, 0, 0, 0, {k}]")?;
        add_lines(&mut text, line.as_str())?;
    }
    Ok(text)
}

#[test]
fn no_more_blocks_and_profiles_than_fit(rt: HostRuntime) -> Result<(), Fail> {
    let alloc = rt.alloc();
    is_same(
        &rt,
        &fault_of(setup_of(alloc, many_blocks(alloc, 32))),
        &Ok(()),
    );
    is_same(
        &rt,
        &fault_of(setup_of(alloc, many_blocks(alloc, 33))),
        &Err(SetupFault::Field(11)),
    );
    is_same(
        &rt,
        &fault_of(setup_of(alloc, many_profiles(alloc, 64))),
        &Ok(()),
    );
    is_same(
        &rt,
        &fault_of(setup_of(alloc, many_profiles(alloc, 65))),
        &Err(SetupFault::Field(24)),
    );
    Ok(())
}

#[test]
fn texts_that_are_no_toml(rt: HostRuntime) -> Result<(), Fail> {
    let alloc = rt.alloc();
    is_same(
        &rt,
        &fault_of(Setup::read(alloc, b"[endpoint]\nname = \"\xFF\"")),
        &Err(SetupFault::Syntax),
    );
    let blank = vec![in alloc; b' '; 65_536]?;
    is_same(
        &rt,
        &fault_of(Setup::read(alloc, blank.as_slice())),
        &Err(SetupFault::Field(1)),
    );
    let too_long = vec![in alloc; 0xFF; 65_537]?;
    is_same(
        &rt,
        &fault_of(Setup::read(alloc, too_long.as_slice())),
        &Err(SetupFault::Field(0)),
    );
    Ok(())
}

#[test]
fn what_the_setup_says(rt: HostRuntime) {
    let Ok(setup) = Setup::read(rt.alloc(), DEMO_SETUP.as_bytes()) else {
        assert!(rt; false, "the setup is read");
        return;
    };
    is_same(&rt, &setup.block_count(), &1);
    match setup.block(0) {
        Some(block) => {
            is_same(&rt, &block.name.as_slice(), &b"Main".as_slice());
            is_same(&rt, &block.muids.as_slice(), &[19_088_743, 300].as_slice());
            let keys = [block.hint, block.midi1, block.direction, block.first];
            is_same(&rt, &keys, &[3, 0, 3, 0]);
            is_same(&rt, &[block.count, block.ci, block.sysex8], &[1, 2, 0]);
            assert!(rt; block.active);
        }
        None => assert!(rt; false, "block 0"),
    }
    assert!(rt; setup.block(1).is_none());
    is_same(&rt, &setup.profile_count(), &1);
    match setup.profile(0) {
        Some(profile) => {
            let place = Place::Channel(U4::low_bits(0), U4::low_bits(2));
            assert!(rt; profile.block == 0 && profile.place == place && !profile.on);
            let id = [126, 0, 1, 1, 0];
            for (k, number) in id.iter().enumerate() {
                is_same(&rt, &profile.id[k].get(), number);
            }
        }
        None => assert!(rt; false, "profile 0"),
    }
    assert!(rt; setup.profile(1).is_none());
    is_same(&rt, &setup.product_id(), &"SN-0001");
    let identity = Identity {
        manufacturer: [125, 0, 0],
        family: [1, 0],
        model: [2, 0],
        revision: [1, 0, 0, 0],
    };
    is_same(&rt, &setup.identity(), &identity);
    is_same(&rt, &setup.config(), &Config { protocol: 2 });
}

#[test]
fn each_fault_has_its_text(rt: HostRuntime) -> Result<(), Fail> {
    for (fault, text) in [
        (SetupFault::Syntax, "the setup is not TOML"),
        (
            SetupFault::Field(Rule::TextIsShort.number()),
            "the setup breaks rule 0",
        ),
        (
            SetupFault::Field(Rule::BlocksThatHaveCiShareNoGroup.number()),
            "the setup breaks rule 22",
        ),
        (
            SetupFault::Field(Rule::ProfilesAreDistinct.number()),
            "the setup breaks rule 31",
        ),
        (SetupFault::NoMemory, "there is no memory for the setup"),
    ] {
        has_text(&rt, rt.alloc(), &fault, text)?;
    }
    Ok(())
}
