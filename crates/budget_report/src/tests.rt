//! Printed lines as they stand in `docs/formats.md`.

use crate::{Status, holds_text, meets_text, no_paths_text};
use std::test::Fail;

#[test]
fn answers_have_their_lines(rt: HostRuntime) -> Result<(), Fail> {
    let alloc = rt.alloc();
    assert_eq!(rt; meets_text(alloc, 80)?.as_slice(), b"meets 80\n".as_slice());
    assert_eq!(rt; no_paths_text(alloc)?.as_slice(), b"no paths\n".as_slice());
    assert_eq!(rt; holds_text(alloc, -1)?.as_slice(), b"holds -1\n".as_slice());
    assert_eq!(rt; Status::Memory.code(), 8);
    Ok(())
}
