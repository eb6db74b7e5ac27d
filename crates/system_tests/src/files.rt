use crate::file_system::FileSystem;
use crate::process::Answer;
use disk_store::{Disk, FileDisk};
use outside_io::Failed;
use std::fs;
use std::test::Fail;

#[test]
fn a_file_is_written_synced_and_read_again(rt: HostRuntime) -> Result<(), Fail> {
    let _earlier = fs::remove_file(&rt, "helios.journal");
    let mut disk = FileDisk::over(&rt, "helios.journal")?;
    assert_eq!(rt; disk.len()?, 0);
    disk.write_at(0, b"wound")?;
    disk.write_at(1, b"ait")?;
    disk.sync()?;
    let mut again = FileDisk::over(&rt, "./helios.journal")?;
    assert_eq!(rt; again.len(), Ok(5));
    let mut buffer = [0u8; 8];
    assert_eq!(rt; again.read_at(0, &mut buffer), Ok(5));
    assert!(rt; &buffer[..5] == b"waitd".as_slice());
    let mut part = [0u8; 3];
    assert_eq!(rt; again.read_at(3, &mut part), Ok(2));
    assert!(rt; FileDisk::over(&rt, "no/such/folder").is_err());
    Ok(())
}

#[test]
fn a_file_is_read_and_written_past_signals_and_short_pieces(rt: HostRuntime) -> Result<(), Fail> {
    let system = FileSystem::new(
        ".",
        &[
            Answer::Signal,
            Answer::Moves(2),
            Answer::Signal,
            Answer::Moves(2),
            Answer::Moves(1),
            Answer::Signal,
            Answer::Moves(2),
        ],
    );
    let files = &system;
    let mut disk = FileDisk::over(&files, "journal")?;
    disk.write_at(1, b"oas")?;
    assert_eq!(rt; system.moves(), 4);
    let mut buffer = [0u8; 8];
    assert_eq!(rt; disk.read_at(1, &mut buffer), Ok(4));
    assert!(rt; &buffer[..4] == b"oast".as_slice());
    Ok(())
}

#[test]
fn a_buffer_that_is_full_is_read_in_one_call(rt: HostRuntime) -> Result<(), Fail> {
    let system = FileSystem::new(".", &[]);
    let files = &system;
    let mut disk = FileDisk::over(&files, "journal")?;
    let mut part = [0u8; 3];
    assert_eq!(rt; disk.read_at(0, &mut part), Ok(3));
    assert!(rt; part == *b"rig");
    assert_eq!(rt; system.moves(), 1);
    assert_eq!(rt; disk.read_at(0, &mut []), Ok(0));
    assert_eq!(rt; system.moves(), 1);
    Ok(())
}

#[test]
fn a_file_that_breaks_or_takes_nothing_is_a_fault(rt: HostRuntime) -> Result<(), Fail> {
    let system = FileSystem::new(
        ".",
        &[
            Answer::Moves(2),
            Answer::Broken,
            Answer::Moves(1),
            Answer::Broken,
            Answer::Moves(0),
        ],
    );
    let files = &system;
    let mut disk = FileDisk::over(&files, "journal")?;
    assert_eq!(rt; disk.read_at(0, &mut [0u8; 4]), Err(Failed));
    assert_eq!(rt; disk.write_at(0, b"text"), Err(Failed));
    assert_eq!(rt; disk.write_at(0, b"text"), Err(Failed));
    assert_eq!(rt; disk.len(), Err(Failed));
    disk.write_at(0, b"text")?;
    assert_eq!(rt; disk.read_at(0, &mut [0u8; 4]), Ok(4));
    Ok(())
}

#[test]
fn the_folder_of_an_empty_file_is_synced_once_and_then_the_data(
    rt: HostRuntime,
) -> Result<(), Fail> {
    for (folder, path) in [
        (".", "journal"),
        ("data", "data/journal"),
        ("/", "/journal"),
        ("/a/b", "/a/b/journal"),
    ] {
        let system = FileSystem::of_length(folder, Some(0));
        let files = &system;
        let mut disk = FileDisk::over(&files, path)?;
        assert_eq!(rt; system.syncs(), (1, 0), "{path}");
        assert_eq!(rt; disk.sync(), Ok(()));
        assert_eq!(rt; system.syncs(), (1, 1), "{path}");
        assert_eq!(rt; disk.sync(), Err(Failed), "{path}");
    }
    Ok(())
}

#[test]
fn a_folder_that_cannot_be_opened_refuses_an_empty_file_alone(rt: HostRuntime) {
    for (length, is_taken) in [
        (Some(0), false),
        (Some(1), true),
        (Some(5), true),
        (None, false),
    ] {
        let system = FileSystem::of_length("data", length);
        let files = &system;
        assert_eq!(rt;
            FileDisk::over(&files, "journal").is_ok(),
            is_taken,
            "{length:?}"
        );
        assert_eq!(rt; system.syncs(), (0, 0));
    }
}
