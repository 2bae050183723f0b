//! Stores of clips, in memory and over files.

use host_io::{ClipStore, DiskClips, Failed, MemClips, NeverClips};
use std::alloc::Global;
use std::collections::BTreeMap;
use std::fs;
use std::process::Abort;
use std::test::Fail;

// What reads of a name from a place on, into room for three bytes, give.
const READS: [(&str, u64, &str); 6] = [
    ("a", 0, "abc"),
    ("a", 3, "de"),
    ("a", 4, "e"),
    ("a", 5, ""),
    ("a", 18446744073709551615, ""),
    ("b", 0, ""),
];

// Two names, one of them of an empty file.
fn letters(alloc: Global) -> Result<BTreeMap<String, Vec<u8>>, Fail> {
    let mut clips = BTreeMap::new(alloc);
    clips.insert(String::from_str(alloc, "a")?, b"abcde".to_vec(alloc)?)?;
    clips.insert(String::from_str(alloc, "empty")?, Vec::new(alloc))?;
    Ok(clips)
}

fn gives<C: ClipStore>(rt: &impl Abort, store: &mut C) {
    for (name, want) in [("a", Some(5)), ("empty", Some(0)), ("b", None)] {
        assert_eq!(rt; store.length(name), Ok(want), "at {name}");
    }
    for (name, place, want) in READS {
        let mut into = [0; 3];
        match store.read_at(name, place, &mut into) {
            Ok(count) => assert_eq!(rt; &into[..count], want.as_bytes(), "at {place} of {name}"),
            Err(Failed) => assert!(rt; false, "at {place} of {name}"),
        }
    }
}

#[test]
fn memory_gives_clips(rt: HostRuntime) -> Result<(), Fail> {
    gives(
        &rt,
        &mut MemClips::new(letters(rt.alloc())?, Vec::new(rt.alloc())),
    );
    gives(&rt, &mut NeverClips::new(letters(rt.alloc())?));
    Ok(())
}

#[test]
fn memory_fails_where_it_is_told_to(rt: HostRuntime) -> Result<(), Fail> {
    let fails = vec![in rt.alloc(); 0, 2]?;
    let mut store = MemClips::new(letters(rt.alloc())?, fails);
    let mut into = [0; 3];
    assert_eq!(rt; store.length("b"), Err(Failed));
    assert_eq!(rt; store.read_at("a", 1, &mut into), Ok(3));
    assert_eq!(rt; store.read_at("a", 1, &mut into), Err(Failed));
    assert_eq!(rt; store.length("a"), Ok(Some(5)));
    Ok(())
}

#[test]
fn files_of_the_folder_are_clips(rt: HostRuntime) -> Result<(), Fail> {
    let mut store = DiskClips::new(rt.clone()?);
    assert_eq!(rt; store.length("a"), Ok(None), "without a folder");
    fs::create_dir(&rt, "clips")?;
    fs::create_dir(&rt, "clips/folder")?;
    fs::write(&rt, "clips/a", "abcde")?;
    fs::write(&rt, "clips/empty", "")?;
    fs::write(&rt, "beside", "abcde")?;
    gives(&rt, &mut store);
    let mut into = [0; 3];
    assert_eq!(rt; store.length("folder"), Err(Failed));
    assert_eq!(rt; store.read_at("folder", 0, &mut into), Err(Failed));
    assert_eq!(rt; store.length("../beside"), Ok(None));
    assert_eq!(rt; store.length("a"), Ok(Some(5)), "after a fault");
    fs::remove_file(&rt, "beside")?;
    fs::remove_dir_all(&rt, "clips")?;
    Ok(())
}
