//! Why bytes are no views.

use fc_numbers::memory::NoMemory;
use guest_input::image::Start;
use std::alloc::AllocError;
use std::fmt::{self, Display, Formatter, Write};

/// Why bytes are no views, or none for a kernel. The number before each variant is printed with its name.
#[derive(Debug, Clone, Copy, PartialEq, Eq)]
pub enum ViewFault {
    /// 1: the bytes are no JSON text.
    NotJson,
    /// 2: a part is missing, of another form, or none of the format's.
    Shape,
    /// 3: the views are those of another kernel text.
    OtherText,
    /// 4: no function of the kernel starts here; the least such start that is listed.
    UnknownFunction(Start),
    /// 5: there are more than 15 apps.
    TooManyApps,
    /// 6: a name is none of an app, or two apps have it.
    BadName,
    /// 7: an allocation was refused.
    NoMemory,
}

impl From<NoMemory> for ViewFault {
    ghost use Rattle.std.specs.Prelude.{◌≡◌};
    ghost use Rattle.view_file.specs.declared.fault.ViewFault.TheVariants.{NoMemory as memory};

    ghost from_gives = { λ _ fault. fault ≡ memory };

    fn from(_refused: NoMemory) -> ViewFault {
        ViewFault::NoMemory
    }
}

impl From<AllocError> for ViewFault {
    ghost use Rattle.std.specs.Prelude.{◌≡◌};
    ghost use Rattle.view_file.specs.declared.fault.ViewFault.TheVariants.{NoMemory as memory};

    ghost from_gives = { λ _ fault. fault ≡ memory };

    fn from(_refused: AllocError) -> ViewFault {
        ViewFault::NoMemory
    }
}

impl Display for ViewFault {
    ghost use Rattle.std.specs.Prelude.{Some};
    ghost use Rattle.view_file.specs.Faults.{shown_views_fault};

    ghost output = { λ fault. Some (shown_views_fault fault) };

    fn fmt<W: Write>(&self, f: &mut Formatter<W>) -> fmt::Result {
        match self {
            ViewFault::NotJson => f.write_str("1 NotJson"),
            ViewFault::Shape => f.write_str("2 Shape"),
            ViewFault::OtherText => f.write_str("3 OtherText"),
            ViewFault::UnknownFunction(at) => {
                write!(f, "4 UnknownFunction {} {}", at.range, at.offset)
            }
            ViewFault::TooManyApps => f.write_str("5 TooManyApps"),
            ViewFault::BadName => f.write_str("6 BadName"),
            ViewFault::NoMemory => f.write_str("7 NoMemory"),
        }
    }
}
