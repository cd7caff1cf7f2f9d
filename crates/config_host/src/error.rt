//! Why no settings are read.
ghost use Rattle.std.specs.Prelude.{◌≡◌};
ghost use Rattle.config_host.specs.declared.environment.HostError.TheVariants.{System};
ghost use Rattle.config_host.specs.declared.error.HereError.TheVariants.{Host};

use crate::environment::HostError;
use config_file::Stop;
use std::alloc::AllocError;
use std::io;
use thiserror::Error;

/// Why no settings are read: Git would stop, or the system does.
///
/// ```rust
/// use bumpalo::Bump;
/// use config_host::settings_here;
///
/// let texts = Bump::new(rt.alloc());
/// let error = settings_here(&rt, &texts, b"missing").err().expect(&rt, "no such folder");
/// assert!(rt; error.to_string(alloc)?.as_bytes().starts_with(b"missing: "));
/// ```
#[derive(Debug, Drop, Error)]
pub enum HereError<'t> {
    /// The system refuses an answer, or memory, or a variable is not UTF-8.
    #[error("{0}")]
    Host(HostError),
    /// Git stops there.
    #[error("{0}")]
    Stops(Stop<&'t [u8]>),
}

impl From<HostError> for HereError<'_> {
    ghost from_gives = { λ error here. here ≡ Host error };

    fn from(error: HostError) -> Self {
        HereError::Host(error)
    }
}

impl From<io::Error> for HereError<'_> {
    ghost from_gives = { λ error here. here ≡ Host (System error) };

    fn from(error: io::Error) -> Self {
        HereError::Host(HostError::System(error))
    }
}

impl From<AllocError> for HereError<'_> {
    ghost from_gives = { λ _ here. (error : _) × (here ≡ Host (System error)) };

    fn from(error: AllocError) -> Self {
        HereError::Host(HostError::System(io::Error::from(error)))
    }
}
