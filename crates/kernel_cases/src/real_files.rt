//! Inputs in files of the system.
use osek_io::{FileShelf, LoadError, load};

/// A device is no input, as a pipe and a terminal are none: it is refused at once.
#[test]
fn a_device_is_no_input(rt: HostRuntime) {
    let mut shelf = FileShelf::new(&rt);
    let refused = match load(rt.alloc(), &mut shelf, "/dev/zero", 16) {
        Ok(bytes) => {
            drop(bytes);
            false
        }
        Err(error) => error == LoadError::Read,
    };
    assert!(rt; refused);
}

/// The device that stands for an empty file in scripts is read as one.
#[test]
fn the_null_device_is_an_empty_file(rt: HostRuntime) {
    let mut shelf = FileShelf::new(&rt);
    let is_empty = match load(rt.alloc(), &mut shelf, "/dev/null", 16) {
        Ok(bytes) => bytes.is_empty(),
        Err(_) => false,
    };
    assert!(rt; is_empty);
}
