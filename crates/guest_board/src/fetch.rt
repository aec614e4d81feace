//! Where an instruction is fetched from, by the original memory.

ghost use Rattle.std.specs.Prelude.{◌≡◌, ◌+◌, ◌-◌, ◌%◌, ◌^◌, ◌<◌, IfSome, true, false};
ghost use Rattle.gstage.specs.Stage.{IsFor};
ghost use Rattle.guest_ram.specs.Ram.{Ram, is_inside, IsLaid};
ghost use Rattle.sv39_walk.specs.Cache.{Fits};
ghost use Rattle.guest_board.specs.Fetch.{half_place, half_by, half_at, is_split, with_first, with_second, fetched, second_place, text_place, outside_text, with_halves};
ghost use Rattle.guest_board.specs.FetchFacts.{HalfInside};
ghost use Rattle.guest_board.specs.declared.fetch.HalfPlace.TheVariants.{In as FoundIn};

use fc_numbers::machine::{Access, Mode, Stop};
use fc_numbers::places::{Gpa, PAGE, Va};
use gstage::stage::SecondStage;
use guest_ram::GuestRam;
use rv_step::causes::{FETCH_ACCESS_FAULT, FETCH_PAGE_FAULT};
use rv_step::resolve::{Resolved, resolve};
use rv_step::vcpu::Vcpu;
use sv39_walk::cache::WalkCache;
use sv39_walk::laws::{translations_go_by_page, translations_keep_low_bits};

/// Where a halfword is fetched from: whether in text, and its place; or why it is not.
#[derive(Debug, Clone, Copy)]
pub enum HalfPlace {
    In { text: bool, place: Gpa },
    Faults { cause: u64, tval: u64 },
    Stops(Stop),
}

/// What a fetch comes to: one halfword or two, whether in text, and the place of the first; or why it comes to none.
#[derive(Debug, Clone, Copy)]
pub enum Fetched {
    Short {
        text: bool,
        place: Gpa,
        half: u16,
    },
    Long {
        text: bool,
        place: Gpa,
        first: u16,
        second: u16,
    },
    Faults {
        cause: u64,
        tval: u64,
    },
    Stops(Stop),
}

#[tactic(auto, unfolding(crate::specs::Fetch::half_place))]
fn find<S: SecondStage>(
    v: &Vcpu,
    ram: &GuestRam,
    cache: &mut WalkCache,
    stage: &S,
    va: Va,
) -> HalfPlace
    requires stage { IsFor (S.text stage.now) (S.ram stage.now) ram.now }
    requires fits { Fits ram.now cache.old }
    ensures fits { Fits ram.now cache.new }
    ensures value { result ≡ half_place v.now ram.now va }
    ensures inside { HalfInside ram.now result }
{
    match resolve(v, ram, cache, stage, Access::Fetch, va) {
        Resolved::Text(place) => HalfPlace::In { text: true, place },
        Resolved::Ram(place) => match v.mode {
            Mode::Vs => HalfPlace::Stops(Stop::KernelOutsideText),
            Mode::Vu => HalfPlace::In { text: false, place },
        },
        Resolved::PageFault => HalfPlace::Faults {
            cause: FETCH_PAGE_FAULT,
            tval: va.0,
        },
        Resolved::AccessFault => HalfPlace::Faults {
            cause: FETCH_ACCESS_FAULT,
            tval: va.0,
        },
        Resolved::TableInText => HalfPlace::Stops(Stop::TableInText),
    }
}

/// Where the second halfword is fetched from, if it is on the page of the first, which is found at this place: beside it.
fn beside(v: &Vcpu, ram: &GuestRam, text: bool, place: Gpa) -> Option<HalfPlace>
    requires first { half_place v.now ram.now v.now.pc ≡ FoundIn text place }
    requires inside { HalfInside ram.now (FoundIn text place) }
    ensures value { IfSome result (λ found. found ≡ second_place v.now ram.now) }
    ensures inside { IfSome result (HalfInside ram.now) }
{
    if v.pc.0 % PAGE >= PAGE - 2 {
        return None;
    }
    // The calls say how memory is laid out, and how the addresses of a page are translated.
    let _laid = ram.text();
    translations_go_by_page();
    translations_keep_low_bits();
    Some(HalfPlace::In {
        text,
        place: Gpa(place.0 + 2),
    })
}

/// Where the second halfword is fetched from, where the first is found at this place.
fn find_second<S: SecondStage>(
    v: &Vcpu,
    ram: &GuestRam,
    cache: &mut WalkCache,
    stage: &S,
    text: bool,
    place: Gpa,
) -> HalfPlace
    requires stage { IsFor (S.text stage.now) (S.ram stage.now) ram.now }
    requires fits { Fits ram.now cache.old }
    requires first { half_place v.now ram.now v.now.pc ≡ FoundIn text place }
    requires inside { HalfInside ram.now (FoundIn text place) }
    ensures fits { Fits ram.now cache.new }
    ensures value { result ≡ second_place v.now ram.now }
    ensures inside { HalfInside ram.now result }
{
    if let Some(found) = beside(v, ram, text, place) {
        return found;
    }
    find(v, ram, cache, stage, Va(v.pc.0.wrapping_add(2)))
}

#[tactic(auto, using(crate::proofs::Halves::even_inside, crate::proofs::Halves::half_small))]
fn read(ram: &GuestRam, place: Gpa) -> u16
    requires { is_inside ram.now place ≡ true }
    ensures { result ≡ half_at ram.now place }
{
    ram.load_half(Gpa(place.0 - place.0 % 2))
}

fn splits(text: bool, first: Gpa, other: bool, second: Gpa) -> bool
    ensures { result ≡ is_split text first other second }
{
    if text {
        !other || second.0 != first.0.wrapping_add(2)
    } else {
        other
    }
}

/// What the fetch of the vCPU's next instruction comes to.
#[tactic(auto, unfolding(crate::specs::Fetch::fetched))]
pub(crate) fn fetch<S: SecondStage>(
    v: &Vcpu,
    ram: &GuestRam,
    cache: &mut WalkCache,
    stage: &S,
) -> Fetched
    requires stage { IsFor (S.text stage.now) (S.ram stage.now) ram.now }
    requires fits { Fits ram.now cache.old }
    ensures value { result ≡ fetched v.now ram.now }
    ensures fits { Fits ram.now cache.new }
{
    match find(v, ram, cache, stage, v.pc) {
        HalfPlace::Faults { cause, tval } => Fetched::Faults { cause, tval },
        HalfPlace::Stops(stop) => Fetched::Stops(stop),
        HalfPlace::In { text, place } => {
            let first = read(ram, place);
            if first % 4 != 3 {
                return Fetched::Short {
                    text,
                    place,
                    half: first,
                };
            }
            match find_second(v, ram, cache, stage, text, place) {
                HalfPlace::Faults { cause, tval } => Fetched::Faults { cause, tval },
                HalfPlace::Stops(stop) => Fetched::Stops(stop),
                HalfPlace::In {
                    text: other,
                    place: next,
                } => {
                    if splits(text, place, other, next) {
                        Fetched::Stops(Stop::TextSplit)
                    } else {
                        Fetched::Long {
                            text,
                            place,
                            first,
                            second: read(ram, next),
                        }
                    }
                }
            }
        }
    }
}

/// The place of the first halfword, where the instruction is reached and that place is in text.
pub(crate) fn place_in_text(got: &Fetched) -> Option<Gpa>
    ensures { result ≡ text_place got.now }
{
    match *got {
        Fetched::Short { text, place, .. } => if text { Some(place) } else { None },
        Fetched::Long { text, place, .. } => if text { Some(place) } else { None },
        _ => None,
    }
}

/// The same fetch with other halfwords.
pub(crate) fn replace_halves(got: Fetched, first: u16, second: u16) -> Fetched
    ensures { result ≡ with_halves got first second }
{
    match got {
        Fetched::Short { text, place, .. } => Fetched::Short {
            text,
            place,
            half: first,
        },
        Fetched::Long { text, place, .. } => Fetched::Long {
            text,
            place,
            first,
            second,
        },
        other => other,
    }
}
