//! Which kinds are errors though they aren't by themselves, and how grave a kind is then.

ghost use Rattle.std.specs.Prelude.{◌≡◌};
ghost use Rattle.std.specs.List.{list_any};
ghost use Rattle.std.specs.Str.{bytes_eq};
ghost use Rattle.lint_findings.specs.Names.{about_text};

use crate::finding::About;
use crate::name::about_name;
use init_base::List;

/// Which kinds are told as errors, beside those that are errors by themselves.
#[derive(Debug, Drop)]
pub enum Promoted {
    Nothing,
    All,
    Kinds(List<About>),
}

/// How grave a kind is.
#[derive(Clone, Copy, Debug, PartialEq, Eq)]
pub enum Severity {
    Error,
    Warning,
    Hint,
}

impl About {
    ghost use Rattle.std.specs.Prelude.{◌≡◌};
    ghost use Rattle.lint_findings.specs.Promoted.{own_severity};

    /// How grave a kind is by itself.
    pub fn severity(self) -> Severity
        ensures { result ≡ own_severity self }
    {
        match self {
            About::Error(_) => Severity::Error,
            About::Warning(_) => Severity::Warning,
            About::Hint(_) => Severity::Hint,
        }
    }
}

/// Whether two kinds have one name.
fn are_one(kind: About, other: About) -> bool
    ensures { result ≡ bytes_eq (about_text kind) (about_text other) }
{
    about_name(kind) == about_name(other)
}

fn is_among(about: About, kinds: &[About]) -> bool
    ensures { result ≡ list_any (λ kind. bytes_eq (about_text kind) (about_text about)) kinds.now }
{
    kinds.iter().any(|kind| are_one(*kind, about))
}

impl Promoted {
    ghost use Rattle.std.specs.Prelude.{◌≡◌};
    ghost use Rattle.lint_findings.specs.Promoted.{is_promoted, severity_in};

    /// Whether a kind is promoted.
    fn has(&self, about: About) -> bool
        ensures { result ≡ is_promoted self.now about }
    {
        match self {
            Promoted::Nothing => false,
            Promoted::All => true,
            Promoted::Kinds(kinds) => is_among(about, kinds.items()),
        }
    }

    /// How grave a kind is where these are promoted.
    pub fn severity(&self, about: About) -> Severity
        ensures { result ≡ severity_in self.now about }
    {
        if self.has(about) {
            Severity::Error
        } else {
            about.severity()
        }
    }
}
