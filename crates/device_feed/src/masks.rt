//! The vCPUs that a mask and its base name (SBI specification, "Hart list parameter").

ghost use Rattle.std.specs.Prelude.{◌≡◌, ◌<◌, ◌+◌, nat_lt, true, length, replicate};
ghost use Rattle.device_feed.specs.Calls.{mask_has_bit, are_vcpus, named, with_bits};

/// The bits of a mask.
const BITS: u64 = 64;

/// Whether bit k of the mask is set.
fn has_bit(mask: u64, k: u64) -> bool
    requires { k < 64 }
    ensures { result ≡ mask_has_bit mask k }
{
    (mask >> k) % 2 == 1
}

/// Whether base plus k is below a number.
fn is_below(base: u64, k: u64, vcpus: u64) -> bool
    ensures { result ≡ nat_lt (base + k) vcpus }
{
    base < vcpus && k < vcpus - base
}

/// Whether base plus the number of each set bit is below the number of vCPUs.
pub fn are_vcpus(vcpus: usize, mask: u64, base: u64) -> bool
    ensures { result ≡ are_vcpus vcpus mask base }
{
    let vcpus = vcpus as u64;
    for k in 0..BITS {
        if has_bit(mask, k) && !is_below(base, k, vcpus) {
            return false;
        }
    }
    true
}

/// Sets all software bits.
pub fn set_all(soft: &mut [bool])
    ensures { soft.new ≡ replicate (length soft.old) true }
{
    for bit in soft.iter_mut() {
        *bit = true;
    }
}

/// Sets the software bits of the vCPUs that are named.
pub fn set_named(soft: &mut [bool], mask: u64, base: u64)
    ensures { soft.new ≡ with_bits soft.old (named mask base 64) }
{
    let vcpus = soft.len() as u64;
    for k in 0..BITS {
        if has_bit(mask, k) && is_below(base, k, vcpus) {
            soft[(base + k) as usize] = true;
        }
    }
}
