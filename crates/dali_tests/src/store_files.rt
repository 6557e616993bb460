// A store in a file beside one in memory, of which all is proved: the same calls on both.

use dali_shared_tests::expect_that;
use dali_store::{FileStore, MemoryStore, Store, StoreFault};
use std::alloc::Global;
use std::fs;
use std::fs::Permissions;
use std::os::unix::fs::{PermissionsExt, symlink};
use std::test::Fail;

const LIMIT: usize = 100;

// A call of a store, or that the program starts anew, over what the last one left.
#[derive(Clone, Copy)]
enum Call {
    Append(&'static [u8]),
    Cut(usize),
    Replace(&'static [u8]),
    Sync,
    Start,
}

static GROWN: [Call; 5] = [
    Call::Append(b"abc"),
    Call::Sync,
    Call::Append(b"d"),
    Call::Start,
    Call::Append(b"ef"),
];

static CUT: [Call; 7] = [
    Call::Append(b"abcdef"),
    Call::Cut(4),
    Call::Sync,
    Call::Append(b"g"),
    Call::Cut(5),
    Call::Start,
    Call::Cut(0),
];

static REPLACED: [Call; 8] = [
    Call::Replace(b"abc"),
    Call::Append(b"de"),
    Call::Sync,
    Call::Start,
    Call::Replace(b""),
    Call::Append(b"fgh"),
    Call::Replace(b"ijklm"),
    Call::Sync,
];

// Makes a call, and tells what it answers.
fn answer<S: Store>(alloc: Global, store: &mut S, call: Call) -> Result<bool, StoreFault> {
    match call {
        Call::Append(bytes) => Ok(append(store, bytes)),
        Call::Cut(len) => cut(alloc, store, len),
        Call::Replace(bytes) => Ok(store.replace(bytes)),
        Call::Sync => Ok(store.sync()),
        Call::Start => Ok(true),
    }
}

// Appends the bytes one by one, since the store in memory takes one a call.
fn append<S: Store>(store: &mut S, bytes: &[u8]) -> bool {
    for &byte in bytes {
        if store.append(&[byte]) != Some(1) {
            return false;
        }
    }
    true
}

// Cuts a store to `len` bytes, if it has as many.
fn cut<S: Store>(alloc: Global, store: &mut S, len: usize) -> Result<bool, StoreFault> {
    let held = store.read(alloc, LIMIT)?;
    if len <= held.len() {
        Ok(store.cut(len))
    } else {
        Ok(false)
    }
}

// Whether two stores answer the same, and show the same then.
fn agree<S: Store, T: Store>(
    alloc: Global,
    first: &mut S,
    second: &mut T,
    call: Call,
) -> Result<bool, StoreFault> {
    let is_same = answer(alloc, first, call)? == answer(alloc, second, call)?;
    Ok(is_same && show_alike(alloc, first, second, LIMIT)?)
}

// Whether two stores show the same bytes, up to a limit.
fn show_alike<S: Store, T: Store>(
    alloc: Global,
    first: &mut S,
    second: &mut T,
    limit: usize,
) -> Result<bool, StoreFault> {
    match (first.read(alloc, limit), second.read(alloc, limit)) {
        (Ok(one), Ok(other)) => Ok(one.as_slice() == other.as_slice()),
        (Err(one), Err(other)) => Ok(one == other && one == StoreFault::TooBig),
        _ => Ok(false),
    }
}

// Makes calls on both, over these bytes, and tests that they agree, and the file at the end.
fn judge(rt: &HostRuntime, start: &[u8], calls: &[Call]) -> Result<(), Fail> {
    let name = "store_files.bin";
    fs::write(rt, name, start)?;
    let alloc = rt.alloc();
    let mut memory = MemoryStore::new(alloc, start.to_vec(alloc)?);
    let mut file = FileStore::journal(rt, name);
    let is_same = matches!(show_alike(alloc, &mut file, &mut memory, LIMIT), Ok(true));
    expect_that(is_same, "the same bytes at the start")?;
    for &call in calls {
        if let Call::Start = call {
            file = FileStore::journal(rt, name);
        }
        let is_same = matches!(agree(alloc, &mut file, &mut memory, call), Ok(true));
        expect_that(is_same, "the same answers and bytes")?;
    }
    let held = fs::read(rt, name)?;
    fs::remove_file(rt, name)?;
    expect_that(held.as_slice() == memory.bytes(), "what the file has")
}

// The same over a few bytes at the start.
fn judge_each(rt: &HostRuntime, calls: &[Call]) -> Result<(), Fail> {
    judge(rt, b"", calls)?;
    judge(rt, b"xyz", calls)?;
    judge(rt, b"0123456789", calls)
}

#[test]
fn a_file_is_as_memory(rt: HostRuntime) -> Result<(), Fail> {
    judge_each(&rt, &GROWN)?;
    judge_each(&rt, &CUT)?;
    judge_each(&rt, &REPLACED)
}

#[test]
fn too_many_bytes(rt: HostRuntime) -> Result<(), Fail> {
    fs::write(&rt, "store_files.big", b"abcd")?;
    let alloc = rt.alloc();
    let mut memory = MemoryStore::new(alloc, b"abcd".to_vec(alloc)?);
    let mut file = FileStore::journal(&rt, "store_files.big");
    let is_same = matches!(show_alike(alloc, &mut file, &mut memory, 3), Ok(true));
    expect_that(is_same, "too big")?;
    let is_same = matches!(show_alike(alloc, &mut file, &mut memory, 4), Ok(true));
    fs::remove_file(&rt, "store_files.big")?;
    expect_that(is_same && !file.has_failed(), "just as many as may be")
}

// Nothing is made if no call reads first.
#[test]
fn a_file_that_is_not_read_first(rt: HostRuntime) -> Result<(), Fail> {
    let mut file = FileStore::journal(&rt, "store_files.unread");
    let is_refused = file.append(b"a").is_none() && !file.replace(b"a") && !file.sync();
    expect_that(is_refused && file.has_failed(), "a failure")?;
    expect_that(
        file.cause() == Some("the file isn't open: store_files.unread"),
        "its cause",
    )?;
    expect_that(!fs::exists(&rt, "store_files.unread")?, "no file")
}

// Puts a text in the place of what a file has, and tells whether that was done, and what the file has then.
fn put_text(rt: &HostRuntime, name: &str, text: &[u8]) -> Result<(bool, Vec<u8>), Fail> {
    let is_put = FileStore::text(rt, name).replace(text);
    Ok((is_put, fs::read(rt, name)?))
}

#[test]
fn a_text_takes_the_place_of_a_file(rt: HostRuntime) -> Result<(), Fail> {
    let (is_put, held) = put_text(&rt, "store_files.text", b"00 11\n")?;
    expect_that(
        is_put && held.as_slice() == b"00 11\n".as_slice(),
        "a new file",
    )?;
    fs::set_permissions(&rt, "store_files.text", Permissions::from_mode(0o640))?;
    symlink(&rt, "store_files.text", "store_files.link")?;
    let (is_put, held) = put_text(&rt, "store_files.link", b"22\n")?;
    let is_link = fs::symlink_metadata(&rt, "store_files.link")?.is_symlink();
    let mode = fs::metadata(&rt, "store_files.text")?.permissions().mode();
    fs::remove_file(&rt, "store_files.link")?;
    fs::remove_file(&rt, "store_files.text")?;
    expect_that(
        is_put && held.as_slice() == b"22\n".as_slice(),
        "in the place of the old",
    )?;
    expect_that(
        is_link && mode & 0o777 == 0o640,
        "behind the link, permissions kept",
    )?;
    expect_that(!fs::exists(&rt, "store_files.text.new")?, "nothing is left")
}

// Puts a text in the place of a file while these bytes are in the way, and tests whether that is done.
fn judge_in_the_way(rt: &HostRuntime, in_the_way: &[u8], is_left: bool) -> Result<(), Fail> {
    fs::write(rt, "store_files.kept", b"11\n")?;
    fs::write(rt, "store_files.kept.new", in_the_way)?;
    let mut file = FileStore::text(rt, "store_files.kept");
    expect_that(
        file.replace(b"33\n") == is_left,
        "done where a reading left it",
    )?;
    let held = fs::read(rt, "store_files.kept")?;
    let wanted = if is_left { "33\n" } else { "11\n" };
    expect_that(held.as_slice() == wanted.as_bytes(), "what the file has")?;
    if !is_left {
        let new = fs::read(rt, "store_files.kept.new")?;
        fs::remove_file(rt, "store_files.kept.new")?;
        expect_that(new.as_slice() == in_the_way, "it is untouched")?;
        let cause = file.cause().unwrap_or("");
        let is_told = cause.starts_with(
            "what stands in the way was not left by a reading of a unit: ",
        );
        expect_that(is_told, "the cause")?;
    }
    Ok(fs::remove_file(rt, "store_files.kept")?)
}

#[test]
fn what_stands_in_the_way_of_a_text(rt: HostRuntime) -> Result<(), Fail> {
    judge_in_the_way(&rt, b"", true)?;
    judge_in_the_way(&rt, b"09 AF\n1", true)?;
    judge_in_the_way(&rt, b"09\taf\r\n", true)?;
    judge_in_the_way(&rt, &[b'0'; 4096], true)?;
    judge_in_the_way(&rt, &[b'0'; 4097], false)?;
    judge_in_the_way(&rt, b"09 AG\n", false)?;
    judge_in_the_way(&rt, b"DB1\x02", false)
}

#[test]
fn a_text_is_only_replaced(rt: HostRuntime) -> Result<(), Fail> {
    let mut file = FileStore::text(&rt, "store_files.only");
    let is_read = file.read(rt.alloc(), LIMIT).is_ok();
    let is_refused = !is_read && file.append(b"0").is_none() && !file.cut(0) && !file.sync();
    expect_that(
        is_refused && !fs::exists(&rt, "store_files.only")?,
        "no other call",
    )?;
    let mut terminal = FileStore::text(&rt, "/dev/null");
    expect_that(
        terminal.replace(b"00\n"),
        "what is no regular file is written to",
    )?;
    expect_that(
        !FileStore::text(&rt, "/dev").replace(b"00\n"),
        "a folder isn't",
    )
}
