//! From the bytes of a file to the image of a kernel.

ghost use Rattle.std.specs.Prelude.{◌≡◌, ◌≢◌, ◌++◌, ℕ, List, IfOk, IfErr, Ok, Err};
ghost use Rattle.sha2.specs.Hashers.{Holds256};
ghost use Rattle.guest_input.specs.Accepted.{IsImage};
ghost use Rattle.guest_image.specs.Digest.{eight, if_several, place_bytes, start_bytes, digest_of};
ghost use Rattle.guest_image.specs.ImageFile.{or_elf, plain_kernel, kernel_bytes, image_of};
ghost use Rattle.guest_image.specs.declared.image.ImageFault.TheVariants.{Elf};
ghost use Rattle.elf_read.specs.declared.parts.ElfFault.TheVariants as elf;
ghost use Rattle.elf_read.specs.Elf.{has_mark, elf_of};
ghost use Rattle.elf_read.specs.Kernel.{kernel_of_laid, image_with};

use crate::image::ImageFault;
use crate::plain::read_plain;
use elf_read::kernel::kernel_of_laid;
use elf_read::laid::Laid;
use elf_read::parts::{ElfFault, ElfParts};
use elf_read::read::{has_mark, read_elf};
use fc_numbers::places::Span;
use guest_input::image::{Function, Image};
use json_fields::parse::{Unread, parse};
use sha2::{Digest, Sha256};
use std::alloc::Global;

#[tactic(auto, unfolding(crate::specs::Digest::eight))]
fn put_number(hasher: &mut Sha256, number: u64)
    ensures { (m : List ℕ) → Holds256 hasher.old m → Holds256 hasher.new (m ++ eight number) }
{
    hasher.update(number.to_le_bytes());
}

/// A number that counts only where there are several ranges.
fn put_if_several(hasher: &mut Sha256, several: bool, number: u64)
    ensures { (m : List ℕ) → Holds256 hasher.old m → Holds256 hasher.new (m ++ if_several several number) }
{
    if several {
        put_number(hasher, number);
    }
}

/// The place and the size of a range.
fn put_range(hasher: &mut Sha256, range: &Span)
    ensures { (m : List ℕ) → Holds256 hasher.old m → Holds256 hasher.new (m ++ place_bytes range.now) }
{
    put_number(hasher, range.start.0);
    put_number(hasher, range.end.0.saturating_sub(range.start.0));
}

/// The start of a function.
fn put_start(hasher: &mut Sha256, several: bool, function: &Function)
    ensures { (m : List ℕ) → Holds256 hasher.old m → Holds256 hasher.new (m ++ start_bytes several function.now) }
{
    put_if_several(hasher, several, function.at.range as u64);
    put_number(hasher, function.at.offset as u64);
}

/// The digest of the places and sizes of text, the starts of the functions, and the padded text.
#[tactic(auto, unfolding(crate::specs::Digest::digest_of))]
fn digest(kernel: &ElfParts) -> [u8; 32]
    ensures { result ≡ digest_of kernel.now }
{
    let ranges = kernel.ranges.spans();
    let several = ranges.len() != 1;
    let mut hasher = Sha256::new();
    put_if_several(&mut hasher, several, ranges.len() as u64);
    for range in ranges {
        put_range(&mut hasher, range);
    }
    put_number(&mut hasher, kernel.functions.len() as u64);
    for function in kernel.functions.as_slice() {
        put_start(&mut hasher, several, function);
    }
    hasher.update(kernel.ranges.bytes());
    hasher.finalize()
}

/// The image of a kernel: its parts, with their digest.
pub fn with_digest(kernel: ElfParts) -> Image
    ensures { result ≡ image_with (digest_of kernel) kernel }
{
    let digest = digest(&kernel);
    Image {
        entry: kernel.entry,
        ranges: kernel.ranges,
        parts: kernel.parts,
        functions: kernel.functions,
        digest,
    }
}

/// The kernel that an ELF file holds.
fn read_elf_kernel(alloc: Global, bytes: &[u8]) -> Result<ElfParts, ImageFault>
    ensures ok { IfOk result (λ kernel. or_elf (elf_of bytes.now) ≡ Ok kernel) }
    ensures err { IfErr result (λ fault. fault ≢ Elf elf.NoMemory → or_elf (elf_of bytes.now) ≡ Err fault) }
    ensures image { IfOk result (λ kernel. (digest : List ℕ) → IsImage (image_with digest kernel)) }
{
    match read_elf(alloc, bytes) {
        Ok(kernel) => Ok(kernel),
        Err(fault) => Err(ImageFault::Elf(fault)),
    }
}

/// The kernel that is laid out.
fn accept(alloc: Global, laid: Laid) -> Result<ElfParts, ImageFault>
    ensures ok { IfOk result (λ kernel. or_elf (kernel_of_laid laid) ≡ Ok kernel) }
    ensures err { IfErr result (λ fault. fault ≢ Elf elf.NoMemory → or_elf (kernel_of_laid laid) ≡ Err fault) }
    ensures image { IfOk result (λ kernel. (digest : List ℕ) → IsImage (image_with digest kernel)) }
{
    match kernel_of_laid(alloc, laid) {
        Ok(kernel) => Ok(kernel),
        Err(refused) => Err(ImageFault::Elf(refused)),
    }
}

/// The kernel that a file of the plain form describes.
#[tactic(auto, unfolding(crate::specs::ImageFile::plain_kernel))]
fn read_plain_kernel(alloc: Global, bytes: &[u8]) -> Result<ElfParts, ImageFault>
    ensures ok { IfOk result (λ kernel. plain_kernel bytes.now ≡ Ok kernel) }
    ensures err { IfErr result (λ fault. fault ≢ Elf elf.NoMemory → plain_kernel bytes.now ≡ Err fault) }
    ensures image { IfOk result (λ kernel. (digest : List ℕ) → IsImage (image_with digest kernel)) }
{
    let value = match parse(alloc, bytes) {
        Ok(value) => value,
        Err(Unread::NotJson) => return Err(ImageFault::NotJson),
        Err(Unread::NoMemory) => return Err(ImageFault::Elf(ElfFault::NoMemory)),
    };
    let laid = read_plain(alloc, &value)?;
    accept(alloc, laid)
}

/// The kernel that a file describes.
fn read_kernel(alloc: Global, bytes: &[u8]) -> Result<ElfParts, ImageFault>
    ensures ok { IfOk result (λ kernel. kernel_bytes bytes.now ≡ Ok kernel) }
    ensures err { IfErr result (λ fault. fault ≢ Elf elf.NoMemory → kernel_bytes bytes.now ≡ Err fault) }
    ensures image { IfOk result (λ kernel. (digest : List ℕ) → IsImage (image_with digest kernel)) }
{
    if has_mark(bytes) {
        return read_elf_kernel(alloc, bytes);
    }
    read_plain_kernel(alloc, bytes)
}

/// The image of a kernel: an ELF file, or the plain form, one JSON object with `entry` and either `base` and `text` in
/// hexadecimal or `code` (`[[address,"hex"],..]`), and optionally `data` (as `code`) and `functions`
/// (`[[address,"name"],..]`).
///
/// An Err is the first fault of the file by its number, or want of memory.
#[tactic(auto, unfolding(crate::specs::ImageFile::image_of))]
pub fn read_image(alloc: Global, bytes: &[u8]) -> Result<Image, ImageFault>
    ensures ok { IfOk result (λ image. image_of bytes.now ≡ Ok image) }
    ensures lawful { IfOk result (λ image. IsImage image) }
    ensures err { IfErr result (λ fault. fault ≢ Elf elf.NoMemory → image_of bytes.now ≡ Err fault) }
{
    let kernel = read_kernel(alloc, bytes)?;
    Ok(with_digest(kernel))
}
