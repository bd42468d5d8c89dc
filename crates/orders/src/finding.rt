//! What an inspection may find.
ghost use Rattle.std.specs.Prelude.{◌≡◌};
ghost use Rattle.orders.specs.Findings.{clause_number, finding_number};

/// A clause that orders may break.
#[derive(Clone, Copy, PartialEq, Eq, Debug)]
pub enum Clause {
    /// A view's list has exactly what the view holds, each once.
    Exact = 1,
    /// What is required before stands before.
    Ordered = 2,
    /// Each read sees its source.
    Seeing = 3,
    /// Writes required alike stand in the same order in every view.
    Agreeing = 4,
}

/// What is wrong with orders in writing.
#[derive(Clone, Copy, PartialEq, Eq, Debug)]
pub enum Finding {
    /// The list of a view breaks a clause.
    Broken { clause: Clause, view: u8 },
    /// Numbers are left over.
    LeftOver,
}

// The number of a clause.
impl From<Clause> for u8 {
    ghost from_gives = { λ c n. n ≡ clause_number c };

    fn from(clause: Clause) -> u8 {
        clause as u8
    }
}

// The value by which a finding is told: 100 for each clause, and the view; or 500.
impl From<Finding> for u16 {
    ghost from_gives = { λ f n. n ≡ finding_number f };

    fn from(finding: Finding) -> u16 {
        match finding {
            Finding::Broken { clause, view } => 100 * u16::from(u8::from(clause)) + u16::from(view),
            Finding::LeftOver => 500,
        }
    }
}
