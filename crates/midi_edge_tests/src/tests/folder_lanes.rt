// Lanes over a folder.
ghost use Rattle.std.specs.Prelude.{◌≡◌, ◌<◌, None, length};

use super::folders::{holds, new_folder};
use midi_edge::FolderLanes;
use outside::{Failed, Lanes, OpenFault};
use small_types::U4;
use std::fs;
use std::os::unix::fs::symlink;
use std::test::Fail;

// The names of the files, by their lanes.
const NAMES: [&str; 16] = [
    "group-00.midi1",
    "group-01.midi1",
    "group-02.midi1",
    "group-03.midi1",
    "group-04.midi1",
    "group-05.midi1",
    "group-06.midi1",
    "group-07.midi1",
    "group-08.midi1",
    "group-09.midi1",
    "group-10.midi1",
    "group-11.midi1",
    "group-12.midi1",
    "group-13.midi1",
    "group-14.midi1",
    "group-15.midi1",
];

// What the calls answer if the file of lane 3 takes no byte, and what the file of lane 15 holds.
fn gathers<'a>(rt: &'a HostRuntime, lanes: &mut FolderLanes<&'a HostRuntime>, folder: &str) -> bool
    requires { ⟦<FolderLanes<&'a HostRuntime> as Lanes>⟧.folder lanes.old ≡ None }
{
    let Ok(()) = lanes.begin(folder) else {
        return false;
    };
    let puts = [
        lanes.put(U4::low_bits(3), b"three"),
        lanes.put(U4::low_bits(15), b"fif"),
        lanes.put(U4::low_bits(15), b"teen"),
    ];
    let gathered = holds(rt, folder, NAMES[15], b"");
    lanes.write_out();
    let untold = lanes.faults();
    let written = holds(rt, folder, NAMES[15], b"fifteen");
    let flushed = lanes.flush();
    let faults = lanes.faults();
    let refused = lanes.put(U4::low_bits(3), &[b'x'; 9000]);
    puts == [Ok(()); 3]
        && gathered
        && [flushed, refused] == [Err(Failed); 2]
        && [untold, faults, lanes.faults()] == [0, 1, 2]
        && written
}

fn gathers_anew(rt: &HostRuntime, folder: &str) -> bool {
    let mut lanes = FolderLanes::new(rt);
    gathers(rt, &mut lanes, folder)
}

#[test]
fn lanes_are_gathered_into_files(rt: HostRuntime) -> Result<(), Fail> {
    let folder = new_folder(&rt, "lanes")?;
    let name = format!(in rt.alloc(); "{folder}/group-03.midi1")?;
    symlink(&rt, "/dev/full", name.as_str())?;
    let gathered = gathers_anew(&rt, folder.as_str());
    fs::remove_dir_all(&rt, folder.as_str())?;
    assert!(rt; gathered);
    Ok(())
}

// What the calls answer if the file of lane 3 takes no byte, once all is written out before its time, and what
// the file of lane 15 holds.
fn fails_at_every_lane<'a>(
    rt: &'a HostRuntime,
    lanes: &mut FolderLanes<&'a HostRuntime>,
    folder: &str,
) -> bool
    requires { ⟦<FolderLanes<&'a HostRuntime> as Lanes>⟧.folder lanes.old ≡ None }
{
    let Ok(()) = lanes.begin(folder) else {
        return false;
    };
    let puts = [
        lanes.put(U4::low_bits(15), b"fifteen"),
        lanes.put(U4::low_bits(3), b"three"),
    ];
    lanes.write_out();
    let refused = [
        lanes.put(U4::low_bits(15), b"more"),
        lanes.put(U4::low_bits(0), b"none"),
        lanes.flush(),
    ];
    puts == [Ok(()); 2]
        && refused == [Err(Failed); 3]
        && lanes.faults() == 3
        && holds(rt, folder, NAMES[15], b"fifteen")
}

fn fails_at_every_lane_anew(rt: &HostRuntime, folder: &str) -> bool {
    let mut lanes = FolderLanes::new(rt);
    fails_at_every_lane(rt, &mut lanes, folder)
}

#[test]
fn a_lane_that_cannot_be_written_out_fails_every_lane(rt: HostRuntime) -> Result<(), Fail> {
    let folder = new_folder(&rt, "early")?;
    let name = format!(in rt.alloc(); "{folder}/group-03.midi1")?;
    symlink(&rt, "/dev/full", name.as_str())?;
    let failed = fails_at_every_lane_anew(&rt, folder.as_str());
    fs::remove_dir_all(&rt, folder.as_str())?;
    assert!(rt; failed);
    Ok(())
}

// What new lanes answer in this folder, and their count of faults.
fn begins(rt: &HostRuntime, folder: &str) -> (Result<(), OpenFault>, u64) {
    let mut lanes = FolderLanes::new(rt);
    let answer = lanes.begin(folder);
    (answer, lanes.faults())
}

#[test]
fn an_empty_path_is_no_folder(rt: HostRuntime) {
    assert!(rt; begins(&rt, "") == (Err(OpenFault::Failed), 1));
}

#[test]
fn a_folder_that_is_not_there_is_not_made(rt: HostRuntime) -> Result<(), Fail> {
    let folder = new_folder(&rt, "missing")?;
    fs::remove_dir(&rt, folder.as_str())?;
    let begun = begins(&rt, folder.as_str());
    let exists = fs::exists(&rt, folder.as_str())?;
    assert!(rt; begun == (Err(OpenFault::Failed), 1) && !exists);
    Ok(())
}

// Begins, puts one piece and flushes.
fn puts_one<'a>(
    lanes: &mut FolderLanes<&'a HostRuntime>,
    folder: &str,
    lane: U4,
    piece: &[u8],
) -> bool
    requires folder { ⟦<FolderLanes<&'a HostRuntime> as Lanes>⟧.folder lanes.old ≡ None }
    requires piece { 0 < length piece.now }
{
    let Ok(()) = lanes.begin(folder) else {
        return false;
    };
    let put = lanes.put(lane, piece);
    [put, lanes.flush()] == [Ok(()); 2]
}

// Whether a piece that is put into this lane of new lanes is all that the file holds.
fn fills(rt: &HostRuntime, folder: &str, lane: u8, name: &str, piece: &[u8]) -> bool
    requires { 0 < length piece.now }
{
    let mut lanes = FolderLanes::new(rt);
    puts_one(&mut lanes, folder, U4::low_bits(u32::from(lane)), piece)
        && holds(rt, folder, name, piece)
}

#[test]
fn each_lane_has_its_own_file(rt: HostRuntime) -> Result<(), Fail> {
    let folder = new_folder(&rt, "names")?;
    for lane in 0..16u8 {
        let name = NAMES[usize::from(lane)];
        assert!(rt;
            fills(&rt, folder.as_str(), lane, name, &[lane]),
            "lane {lane}"
        );
    }
    fs::remove_dir_all(&rt, folder.as_str())?;
    Ok(())
}

// Whether `begin` empties the file of lane 0, and what is put is then all that it holds.
fn empties(rt: &HostRuntime, folder: &str, path: &str) -> Result<bool, Fail> {
    fs::write(rt, path, "longer than what is put")?;
    let begun = begins(rt, folder);
    let emptied = holds(rt, folder, NAMES[0], b"");
    fs::write(rt, path, "longer than what is put")?;
    let filled = fills(rt, folder, 0, NAMES[0], b"new");
    fs::remove_dir_all(rt, folder)?;
    Ok(begun == (Ok(()), 0) && emptied && filled)
}

#[test]
fn an_older_file_is_emptied(rt: HostRuntime) -> Result<(), Fail> {
    let folder = new_folder(&rt, "older")?;
    let path = format!(in rt.alloc(); "{folder}/group-00.midi1")?;
    assert!(rt; empties(&rt, folder.as_str(), path.as_str())?);
    Ok(())
}

// Whether lanes begin in the one folder, and make no file in the other.
fn begins_in_one(rt: &HostRuntime, one: &str, other: &str) -> bool {
    begins(rt, one) == (Ok(()), 0)
        && holds(rt, one, NAMES[0], b"")
        && fs::remove_dir(rt, other).is_ok()
        && fs::remove_dir_all(rt, one).is_ok()
}

#[test]
fn a_blank_at_the_end_of_a_path_counts(rt: HostRuntime) -> Result<(), Fail> {
    let without = new_folder(&rt, "blank")?;
    let with = new_folder(&rt, "blank ")?;
    assert!(rt; begins_in_one(&rt, with.as_str(), without.as_str()));
    Ok(())
}
