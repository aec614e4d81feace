//! Kernels that run under `try`, worked out by hand, and every refusal.

use crate::elf_files::{
    damages, hello_apps, hello_log, hello_parts, most_text, put_damages, put_parts,
};
use crate::fixtures::{
    Came, Fails, NONE_FAILS, Wanted, bytes_of, call, image_of, patched, plain_image, views_in,
    views_of,
};
use crate::kernels::{PUT, PUT_APART};
use crate::programs::programs;
use crate::try_tables::{
    FIRST, GivenImage, GivenViews, PUT_LOG, failings, kernels, other_words, refused_files,
};
use elf_read::parts::ElfFault;
use guest_image::image::ImageFault;
use guest_image::image_file::read_image;
use std::alloc::Global;
use std::test::Fail;

const TRY: [&str; 6] = ["try", "image", "views", "sh", "100", "log"];

/// What comes where an image is refused, by this line.
fn refused_by(line: &'static [u8]) -> Wanted {
    Wanted {
        status: 3,
        console: b"",
        log: None,
        line,
    }
}

/// `try image views sh 100 log` of an image and its views.
fn try_while(alloc: Global, image: &[u8], views: &str, fails: Fails) -> Result<Came, Fail> {
    call(
        alloc,
        &TRY,
        &[("image", image), ("views", views.as_bytes())],
        fails,
    )
}

/// The same while nothing fails.
fn try_files(alloc: Global, image: &[u8], views: &str) -> Result<Came, Fail> {
    try_while(alloc, image, views, NONE_FAILS)
}

/// The same where there is no image.
fn try_without_image(alloc: Global, views: &str, fails: Fails) -> Result<Came, Fail> {
    call(alloc, &TRY, &[("views", views.as_bytes())], fails)
}

#[test]
fn kernels_run_as_worked_out(rt: HostRuntime) -> Result<(), Fail> {
    let alloc = rt.alloc();
    for row in kernels() {
        let image = image_of(alloc, &row.kernel)?;
        let views = views_of(alloc, image.as_bytes(), "", row.apps)?;
        let came = try_files(alloc, image.as_bytes(), views.as_str())?;
        came.is(&rt, row.label, &row.wanted);
    }
    Ok(())
}

#[test]
fn traps_and_control_registers_are_the_manuals(rt: HostRuntime) -> Result<(), Fail> {
    let alloc = rt.alloc();
    for row in programs() {
        let image = plain_image(alloc, row.text, row.more)?;
        let views = views_of(alloc, image.as_bytes(), "", "")?;
        let came = try_files(alloc, image.as_bytes(), views.as_str())?;
        let wanted = Wanted {
            status: 0,
            console: row.console,
            log: Some(b""),
            line: b"",
        };
        came.is(&rt, row.label, &wanted);
    }
    Ok(())
}

/// A function of another range is missing: it is restored and logged by its own place. Views of either version name the
/// function that is there.
#[test]
fn a_kernel_of_two_ranges_runs_under_views_of_both_versions(rt: HostRuntime) -> Result<(), Fail> {
    let alloc = rt.alloc();
    let image = image_of(alloc, &PUT_APART)?;
    let wanted = Wanted {
        status: 0,
        console: b"A",
        log: Some(b"1 0 sh 0x80002000 put+0x0 0x80002000 0x80003000 main+0x4\n"),
        line: b"",
    };
    let first = views_in(alloc, image.as_bytes(), 1, "", FIRST)?;
    let came = try_files(alloc, image.as_bytes(), first.as_str())?;
    came.is(&rt, "views of version 1", &wanted);
    let apps = "{\"name\":\"sh\",\"functions\":[[0,0]]}";
    let second = views_in(alloc, image.as_bytes(), 2, "", apps)?;
    let came = try_files(alloc, image.as_bytes(), second.as_str())?;
    came.is(&rt, "views of version 2", &wanted);
    Ok(())
}

#[test]
fn words_of_no_listed_form_are_turned_away(rt: HostRuntime) -> Result<(), Fail> {
    let alloc = rt.alloc();
    for (label, words) in other_words() {
        let came = call(alloc, *words, &[], NONE_FAILS)?;
        let wanted = Wanted {
            status: 2,
            console: b"",
            log: None,
            line: b"2 words\n",
        };
        came.is(&rt, label, &wanted);
    }
    Ok(())
}

/// The image and the views of the first kernel.
fn put_files(alloc: Global) -> Result<(String, String), Fail> {
    let image = image_of(alloc, &PUT)?;
    let views = views_of(alloc, image.as_bytes(), "", FIRST)?;
    Ok((image, views))
}

#[test]
fn refused_files_have_their_lines(rt: HostRuntime) -> Result<(), Fail> {
    let alloc = rt.alloc();
    let (put, _) = put_files(alloc)?;
    for row in refused_files() {
        let image = row.image.unwrap_or(put.as_bytes());
        let views = match row.views {
            GivenViews::Text(text) => String::from_str(alloc, text)?,
            GivenViews::Listed(shared, apps) => views_of(alloc, image, shared, apps)?,
        };
        let came = try_files(alloc, image, views.as_str())?;
        let wanted = Wanted {
            status: row.status,
            console: b"",
            log: None,
            line: row.line,
        };
        came.is(&rt, row.label, &wanted);
    }
    Ok(())
}

#[test]
fn failing_files_and_streams_have_their_lines(rt: HostRuntime) -> Result<(), Fail> {
    let alloc = rt.alloc();
    let (put, views) = put_files(alloc)?;
    for row in failings() {
        let came = match row.image {
            GivenImage::Absent => try_without_image(alloc, views.as_str(), row.fails)?,
            GivenImage::Put => try_while(alloc, put.as_bytes(), views.as_str(), row.fails)?,
            GivenImage::Bytes(bytes) => try_while(alloc, bytes, views.as_str(), row.fails)?,
        };
        came.is(&rt, row.label, &row.wanted);
    }
    Ok(())
}

/// The kernel of examples/hello, which a cross compiler made: functions, groups and chains of a real ELF file. Console
/// and log are those of examples/hello, worked out by hand.
#[test]
fn a_compiled_kernel_runs_to_its_end(rt: HostRuntime) -> Result<(), Fail> {
    let alloc = rt.alloc();
    let image = bytes_of(alloc, hello_parts())?;
    let views = views_of(alloc, &image, "", hello_apps())?;
    let words = ["try", "image", "views", "hello", "2000", "log"];
    let files = [("image", image.as_slice()), ("views", views.as_bytes())];
    let came = call(alloc, &words, &files, NONE_FAILS)?;
    let wanted = Wanted {
        status: 0,
        console: b"Hello.\nTwo ticks later: bye.\n",
        log: Some(hello_log()),
        line: b"",
    };
    came.is(&rt, "hello", &wanted);
    Ok(())
}

/// A byte or more of an ELF file are others: each clause of each fault, and two faults at once.
#[test]
fn damaged_kernels_have_their_first_fault(rt: HostRuntime) -> Result<(), Fail> {
    let alloc = rt.alloc();
    for (parts, rows) in [(hello_parts(), damages()), (put_parts(), put_damages())] {
        let image = bytes_of(alloc, parts)?;
        for row in rows {
            let damaged = patched(alloc, &image, row.patches)?;
            let came = try_files(alloc, &damaged, "")?;
            came.is(&rt, row.label, &refused_by(row.line));
        }
    }
    Ok(())
}

#[test]
fn a_kernel_with_the_most_text_runs(rt: HostRuntime) -> Result<(), Fail> {
    let alloc = rt.alloc();
    let (patches, log) = most_text();
    let image = bytes_of(alloc, put_parts())?;
    let image = patched(alloc, &image, patches)?;
    let views = views_of(alloc, &image, "", FIRST)?;
    let came = try_files(alloc, &image, views.as_str())?;
    let wanted = Wanted {
        status: 0,
        console: b"A",
        log: Some(log),
        line: b"",
    };
    came.is(&rt, "4 MiB", &wanted);
    Ok(())
}

/// The first 0 to 3 bytes of an ELF file are no mark, so that they are read as a plain image.
#[test]
fn every_front_part_of_a_kernel_is_refused(rt: HostRuntime) -> Result<(), Fail> {
    let alloc = rt.alloc();
    for parts in [hello_parts(), put_parts()] {
        let image = bytes_of(alloc, parts)?;
        for size in 0..image.len() {
            let wanted = if size < 4 {
                ImageFault::NotJson
            } else {
                ImageFault::Elf(ElfFault::Truncated)
            };
            let fault = read_image(alloc, &image[..size]).err();
            assert!(rt; fault == Some(wanted), "the first {size} bytes");
        }
    }
    Ok(())
}

/// The ELF file of the first kernel gives the image of its plain form, with the digest for which the views are.
#[test]
fn both_forms_of_a_kernel_give_one_image(rt: HostRuntime) -> Result<(), Fail> {
    let alloc = rt.alloc();
    let image = bytes_of(alloc, put_parts())?;
    let (_, views) = put_files(alloc)?;
    let came = try_files(alloc, &image, views.as_str())?;
    let wanted = Wanted {
        status: 0,
        console: b"A",
        log: Some(PUT_LOG),
        line: b"",
    };
    came.is(&rt, "the ELF form", &wanted);
    Ok(())
}
