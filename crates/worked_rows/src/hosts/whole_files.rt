//! A file that is replaced as a whole, in the folder that it is run in.

use dots_edge::WholeFile;
use std::fs;
use std::fs::File;
use std::io::Read;
use std::test::Fail;

const PATH: &str = "worked_rows_whole";

/// Where a new file is made.
const BESIDE: &str = "worked_rows_whole.new";

/// Whether a file of this text is put at the path.
fn writes_at(rt: &HostRuntime, path: &str, text: &str) -> bool {
    match WholeFile::at(rt.alloc(), path) {
        Ok(mut file) => file.put(rt.alloc(), rt, text.as_bytes()).is_ok(),
        Err(_) => false,
    }
}

fn writes(rt: &HostRuntime, text: &str) -> bool {
    writes_at(rt, PATH, text)
}

/// Whether the file has this text.
fn has(rt: &HostRuntime, text: &str) -> bool {
    match fs::read_to_string(rt, PATH) {
        Ok(found) => found.as_str() == text,
        Err(_) => false,
    }
}

/// Whether the text is written, and nothing is left beside it.
fn is_replaced(rt: &HostRuntime, text: &str) -> bool {
    writes(rt, text) && has(rt, text) && fs::symlink_metadata(rt, BESIDE).is_err()
}

/// Whether who opened the file while it had this text goes on reading it, after another is written.
fn is_read_on(rt: &HostRuntime, text: &str, other: &str) -> bool {
    let mut found = [0; 5];
    match File::open(rt, PATH) {
        Ok(mut file) => {
            is_replaced(rt, other)
                && file.read_exact(&mut found).is_ok()
                && found.as_slice() == text.as_bytes()
        }
        Err(_) => false,
    }
}

/// Whether a link at the name beside it isn't followed: the file to which it leads keeps its text.
fn is_no_link_followed(rt: &HostRuntime, text: &str, other: &str) -> bool {
    writes(rt, text)
        && fs::rename(rt, PATH, "worked_rows_other").is_ok()
        && std::os::unix::fs::symlink(rt, "worked_rows_other", BESIDE).is_ok()
        && is_replaced(rt, other)
        && fs::rename(rt, "worked_rows_other", PATH).is_ok()
        && has(rt, text)
}

/// Whether the file keeps its text where none can be made beside it.
fn is_kept(rt: &HostRuntime, text: &str, other: &str) -> bool {
    fs::create_dir(rt, BESIDE).is_ok()
        && !writes(rt, other)
        && has(rt, text)
        && fs::remove_dir(rt, BESIDE).is_ok()
}

#[test]
fn a_file_is_replaced_as_a_whole(rt: HostRuntime) -> Result<(), Fail> {
    assert!(rt; is_replaced(&rt, "first"));
    assert!(rt; is_read_on(&rt, "first", "the second is longer"));
    assert!(rt; is_replaced(&rt, ""));
    assert!(rt; is_no_link_followed(&rt, "third", "fourth"));
    assert!(rt; is_kept(&rt, "third", "fifth"));
    assert!(rt; !writes_at(&rt, "no/such/folder/file", "text"));
    fs::remove_file(&rt, PATH)?;
    Ok(())
}
