//! Why a reading stops.
ghost use Rattle.std.specs.Prelude.{◌≡◌, ℕ, List, IfErr, IfOk, MatchResult};
ghost use Rattle.config_search.specs.Handing.{IsSame};
ghost use Rattle.config_search.specs.Shown.{AsksNothing, IsNew, IsNewHalt};
ghost use Rattle.config_search.specs.Reading.{IsCopy, PausesAs, StopsAs};
ghost use Rattle.config_search.specs.declared.fact.Fact.{Fact};
ghost use Rattle.config_search.specs.declared.fact.Pause.TheVariants.{Memory};
ghost use Rattle.config_search.specs.declared.halt.Halt.TheVariants.{Pauses, Stops};

use crate::fact::Pause;
use config_file::Stop;
use std::alloc::{AllocError, Global};
use std::io;

/// Why a reading stops before its end.
///
/// ```rust
/// use config_file::{Scope, Why};
/// use config_search::settings::Collector;
/// use config_search::{Follows, Halt, Reading, Text};
///
/// let mut texts = Vec::new(alloc);
/// texts.push(Text { scope: Scope::Local, name: b"config", text: b"[core]\n\tbare\n[us er]", is_file: true })?;
/// let mut reading = Reading::of_texts(alloc, b"", b"", texts, Follows::AsGit);
/// let mut collector = Collector::new(alloc);
/// let halt = reading.read(&mut collector);
/// assert!(rt; matches!(halt, Err(Halt::Stops(stop)) if stop.line == 3 && stop.why == Why::BadLine));
/// assert_eq!(rt; collector.settings.entries.len(), 1); // what comes before is handed on
/// ```
#[derive(Drop)]
pub enum Halt {
    /// It needs a fact, or memory.
    Pauses(Pause),
    /// Git stops here.
    Stops(Stop<Vec<u8>>),
    /// What gets the entries fails.
    Fails(io::Error),
}

impl From<Pause> for Halt {
    ghost from_gives = { λ pause halt. halt ≡ Pauses pause };

    fn from(pause: Pause) -> Halt {
        Halt::Pauses(pause)
    }
}

impl From<AllocError> for Halt {
    ghost from_gives = { λ error halt. halt ≡ Pauses (Memory error) };

    fn from(error: AllocError) -> Halt {
        Halt::Pauses(Pause::Memory(error))
    }
}

impl Halt {
    /// Where Git stops, or the pause. What fails counts as memory.
    pub fn into_stop(self) -> Result<Stop<Vec<u8>>, Pause>
        ensures same { MatchResult result (λ told. self ≡ Stops told) (PausesAs self) }
        ensures asks { IfErr result
            (λ pause. (folder : List ℕ) (facts : List Fact) → IsNewHalt folder facts self → IsNew folder facts pause) }
    {
        match self {
            Halt::Stops(told) => Ok(told),
            Halt::Pauses(pause) => Err(pause),
            Halt::Fails(_) => Err(Pause::Memory(AllocError)),
        }
    }
}

/// Where Git stops, with texts of its own.
pub(crate) fn told(alloc: Global, at: Stop<&[u8]>) -> Result<Stop<Vec<u8>>, AllocError>
    ensures { IfOk result (IsCopy at.entry) }
{
    Ok(Stop {
        file: at.file.to_vec(alloc)?,
        line: at.line,
        why: at.why,
        words: at.words.to_vec(alloc)?,
    })
}

/// The same stop once more.
pub(crate) fn same_stop(alloc: Global, stop: &Stop<Vec<u8>>) -> Result<Stop<Vec<u8>>, AllocError>
    ensures { IfOk result (IsSame stop.now) }
{
    let at = Stop {
        file: stop.file.as_slice(),
        line: stop.line,
        why: stop.why,
        words: stop.words.as_slice(),
    };
    told(alloc, at)
}

/// Git stops here, for this reason.
pub(crate) fn stop(alloc: Global, at: Stop<&[u8]>) -> Result<Halt, AllocError>
    ensures asks { IfOk result AsksNothing }
    ensures stops { IfOk result (StopsAs at.entry) }
{
    Ok(Halt::Stops(told(alloc, at)?))
}
