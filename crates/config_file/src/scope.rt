//! Scopes: where Git has a setting from.
ghost use Rattle.std.specs.Prelude.{◌≡◌};
ghost use Rattle.config_file.specs.Scope.{scope_name};

/// Where Git has a setting from, in the order in which Git reads: a later scope decides over those before it.
///
/// ```rust
/// use config_file::Scope;
///
/// assert_eq!(rt; Scope::Worktree.name(), "worktree"); // as `git config --show-scope` writes it
/// ```
#[derive(Clone, Copy, PartialEq, Eq, Debug)]
pub enum Scope {
    /// The file of the system, such as `/etc/gitconfig`.
    System,
    /// The files of the user, such as `~/.gitconfig`.
    Global,
    /// The file `config` of the repository.
    Local,
    /// The file `config.worktree` of a work tree.
    Worktree,
    /// The command line, variables such as `GIT_CONFIG_COUNT`, and a file that is named by `--file`.
    Command,
}

impl Scope {
    /// The word that `git config --show-scope` writes for the scope: its name in lower case.
    pub fn name(self) -> &'static str
        ensures { result.now ≡ scope_name self }
    {
        match self {
            Scope::System => "system",
            Scope::Global => "global",
            Scope::Local => "local",
            Scope::Worktree => "worktree",
            Scope::Command => "command",
        }
    }
}
