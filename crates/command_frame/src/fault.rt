//! Why a file is refused.

ghost use Rattle.std.specs.Prelude.{◌≡◌, codes, string_bytes, IfOk};
ghost use Rattle.guest_image.specs.Faults.{image_fault_text, setup_fault_text};
ghost use Rattle.view_file.specs.Faults.{shown_views_fault as shown_views_fault};
ghost use Rattle.trace_file.specs.Faults.{shown_trace_fault as shown_trace_fault};
ghost use Rattle.command_frame.specs.Faults.{file_kind, kind_status, kind_word, fault_text};

use crate::status::Status;
use fc_numbers::memory::NoMemory;
use guest_image::image::ImageFault;
use guest_image::setup::SetupFault;
use std::alloc::Global;
use trace_file::fault::TraceFault;
use view_file::fault::ViewFault;

/// What a file is to hold.
#[derive(Debug, Clone, Copy, PartialEq, Eq)]
pub enum Kind {
    /// An image: a kernel with its functions and data.
    Image,
    /// A setup for an image.
    Setup,
    /// Views, for an image or for none in particular.
    Views,
    /// A script for the vCPUs of a setup.
    Script,
    /// The trace of a run.
    Trace,
}

/// Why a file, or what is made of files, is refused. Want of memory is no such reason.
#[derive(Debug, Clone, Copy, PartialEq, Eq)]
pub enum Fault {
    /// The file that is to hold this is over the limit.
    TooLong(Kind),
    /// The bytes give no image, for this reason.
    Image(ImageFault),
    /// The bytes give no setup, for this reason.
    Setup(SetupFault),
    /// The bytes give no views, for this reason.
    Views(ViewFault),
    /// The bytes give no script, for this reason.
    Script(TraceFault),
    /// The bytes give no trace, for this reason.
    Trace(TraceFault),
}

impl Kind {
    /// How the program ends where a file that is to hold this is refused.
    pub(crate) fn status(self) -> Status
        ensures { result ≡ kind_status self }
    {
        match self {
            Kind::Image => Status::Image,
            Kind::Setup => Status::Setup,
            Kind::Views => Status::Views,
            Kind::Script | Kind::Trace => Status::Order,
        }
    }

    /// The word of the line, with a space before it and one behind it.
    pub(crate) fn word(self) -> &'static str
        ensures { result.now ≡ kind_word self }
    {
        match self {
            Kind::Image => " image ",
            Kind::Setup => " setup ",
            Kind::Views => " views ",
            Kind::Script => " script ",
            Kind::Trace => " trace ",
        }
    }
}

impl Fault {
    /// What the refused file is to hold.
    pub(crate) fn kind(self) -> Kind
        ensures { result ≡ file_kind self }
    {
        match self {
            Fault::TooLong(kind) => kind,
            Fault::Image(_) => Kind::Image,
            Fault::Setup(_) => Kind::Setup,
            Fault::Views(_) => Kind::Views,
            Fault::Script(_) => Kind::Script,
            Fault::Trace(_) => Kind::Trace,
        }
    }

    /// Number, name and detail.
    pub(crate) fn text(self, alloc: Global) -> Result<String, NoMemory>
        ensures { IfOk result (λ text. string_bytes text ≡ fault_text self) }
    {
        match self {
            Fault::TooLong(_) => Ok(String::from_str(alloc, "0 TooLong")?),
            Fault::Image(fault) => fault.text(alloc),
            Fault::Setup(fault) => fault.text(alloc),
            Fault::Views(fault) => Ok(format!(in alloc; "{fault}")?),
            Fault::Script(fault) | Fault::Trace(fault) => Ok(format!(in alloc; "{fault}")?),
        }
    }
}
