//! The hook of a setup: the start of the one function of its name, in its range.

use crate::fixtures::image_of;
use crate::kernels::{Kernel, PUT, PUT_APART};
use guest_image::image_file::read_image;
use guest_image::setup_file::read_setup;
use guest_input::image::Start;
use std::alloc::Global;
use std::test::Fail;

/// The hook and the place of the name in the setup of a kernel that names this function.
fn hook_of(alloc: Global, kernel: &Kernel, function: &str) -> Result<(Option<Start>, u64), Fail> {
    let text = image_of(alloc, kernel)?;
    let image = read_image(alloc, text.as_bytes())?;
    let file = format!(in alloc;
        "{{\"vcpus\":1,\"ram\":65536,\"steps\":1,\"hook\":\"{function}\",\"name_at\":8}}"
    )?;
    let setup = read_setup(alloc, file.as_bytes(), &image)?;
    Ok((setup.hook, setup.name_at))
}

#[test]
fn hook_is_the_start_of_the_one_function_of_its_name(rt: HostRuntime) -> Result<(), Fail> {
    let alloc = rt.alloc();
    for (label, kernel, function, range, offset) in [
        ("the first function", PUT, "main", 0, 0),
        ("the second function", PUT, "put", 0, 12),
        ("a function of the second range", PUT_APART, "put", 1, 0),
    ] {
        let (hook, name_at) = hook_of(alloc, &kernel, function)?;
        assert!(rt; hook == Some(Start { range, offset }), "{label}: hook");
        assert_eq!(rt; name_at, 8, "{label}: name");
    }
    Ok(())
}
