//! What can be wrong with a file, layer by layer: a record, a section, the file.
ghost use Rattle.std.specs.Prelude.{◌≡◌};
ghost use Rattle.trace_file.specs.Faults.{record_number, section_number, section_place, file_number, file_place};
ghost use Rattle.trace_file.specs.declared.faults.SectionFault.TheVariants.{Record};
ghost use Rattle.trace_file.specs.declared.faults.FileFault.TheVariants.{Section};

/// What is wrong with one record.
#[derive(Clone, Copy, PartialEq, Eq, Debug)]
pub enum RecordFault {
    Kind = 2,
    Variable = 3,
    Source = 4,
    Full = 5,
    Short = 15,
}

/// A fault of one part of a layer, with the part's position there, counted from 1.
#[derive(Clone, Copy, PartialEq, Eq, Debug)]
pub struct At<F> {
    pub position: u8,
    pub fault: F,
}

/// What is wrong with one section.
#[derive(Clone, Copy, PartialEq, Eq, Debug)]
pub enum SectionFault {
    NoCount,
    Record(At<RecordFault>),
}

/// What is wrong with a file.
#[derive(Clone, Copy, PartialEq, Eq, Debug)]
pub enum FileFault {
    Short,
    Size,
    Section(At<SectionFault>),
    LeftOver,
}

impl From<At<RecordFault>> for SectionFault {
    ghost from_gives = { λ f r. r ≡ Record f };

    fn from(fault: At<RecordFault>) -> SectionFault {
        SectionFault::Record(fault)
    }
}

impl From<At<SectionFault>> for FileFault {
    ghost from_gives = { λ f r. r ≡ Section f };

    fn from(fault: At<SectionFault>) -> FileFault {
        FileFault::Section(fault)
    }
}

impl RecordFault {
    /// Gives the fault's refusal number.
    pub fn number(&self) -> u8
        ensures { result ≡ record_number self.now }
    {
        *self as u8
    }
}

impl SectionFault {
    /// Gives the fault's refusal number: a record's is unaltered.
    pub fn number(&self) -> u8
        ensures { result ≡ section_number self.now }
    {
        match self {
            SectionFault::NoCount => 15,
            SectionFault::Record(at) => at.fault.number(),
        }
    }

    /// Gives the fault's place in its section: a record's position, 0 for the count.
    pub fn place(&self) -> u8
        ensures { result ≡ section_place self.now }
    {
        match self {
            SectionFault::NoCount => 0,
            SectionFault::Record(at) => at.position,
        }
    }
}

impl FileFault {
    /// Gives the fault's refusal number: a section's is unaltered.
    pub fn number(&self) -> u8
        ensures { result ≡ file_number self.now }
    {
        match self {
            FileFault::Short => 15,
            FileFault::Size => 7,
            FileFault::Section(at) => at.fault.number(),
            FileFault::LeftOver => 16,
        }
    }

    /// Gives the fault's place: 100 for each section, and the place in the section; 0 outside the sections.
    pub fn place(&self) -> u16
        ensures { result ≡ file_place self.now }
    {
        match self {
            FileFault::Short | FileFault::Size | FileFault::LeftOver => 0,
            FileFault::Section(at) => 100 * u16::from(at.position) + u16::from(at.fault.place()),
        }
    }
}
