//! What `clone` returns, and what the rule finds in small systems.
ghost use Rattle.std.specs.Prelude.{◌≡◌, ◌++◌, [], None, Some, codes};
ghost use Rattle.config_text.specs.Orders.{Equates, IsCopied};
ghost use Rattle.config_search.specs.Rule.{IsBare, IsBelow, IsGiven, find_in};
ghost use Rattle.config_search.specs.Search.{Inside, Nowhere, Refused, Seeks};
ghost use Rattle.config_search.specs.Layouts.{current, file, folder, found, git_dir, git_dir_with, knows, told, variable};
ghost use Rattle.config_search.specs.declared.TheConstants.{DEVICE};

use crate::fact::Fact;
use crate::known::Follows;
use crate::texts::Text;

/// A clone is the same, and never fails. Choices of includes are equal exactly if they are the same.
pub fn copies()
    ensures facts { IsCopied ⟦<Fact<'static> as Clone>⟧.is_clone ⟦<Fact<'static> as Clone>⟧.is_infallible }
    ensures texts { IsCopied ⟦<Text<'static> as Clone>⟧.is_clone ⟦<Text<'static> as Clone>⟧.is_infallible }
    ensures followed { IsCopied ⟦<Follows as Clone>⟧.is_clone ⟦<Follows as Clone>⟧.is_infallible }
    ensures equality { Equates (◌≡◌) ⟦<Follows as PartialEq>⟧.eq }
{}

/// What the rule finds in small systems, and Git in folders that answer the same.
pub fn layouts()
    ensures below { find_in (knows (git_dir (codes ".git"))) [] [] ≡ Some (found (codes ".git") (codes ".git") IsBelow) }
    ensures bare { find_in (knows (git_dir [])) [] [] ≡ Some (found (codes ".") (codes ".") IsBare) }
    ensures both { find_in (knows (git_dir (codes ".git") ++ git_dir [])) [] []
        ≡ Some (found (codes ".git") (codes ".git") IsBelow) }
    ensures elsewhere { find_in (knows (file (codes ".git") (codes "gitdir: ../held\n") ++ git_dir (codes "../held"))) [] []
        ≡ Some (found (codes "../held") (codes "../held") IsBelow) }
    ensures no_head { find_in (knows (git_dir_with (codes "x") (codes ".git"))) [] [] ≡ None }
    ensures no_refs { find_in (knows (folder (codes ".git") ++ file (codes ".git/HEAD") (codes "ref: refs/heads/main\n")
        ++ folder (codes ".git/objects"))) [] [] ≡ None }
    ensures of_tree { find_in (knows (git_dir (codes ".git") ++ folder (codes "t") ++ file (codes "t/.git") (codes "gitdir: ../.git/w")
        ++ file (codes "t/../.git/w/HEAD") (codes "ref:refs/x") ++ file (codes "t/../.git/w/commondir") (codes "..\n")
        ++ folder (codes "t/../.git/w/..") ++ folder (codes "t/../.git/w/../objects") ++ folder (codes "t/../.git/w/../refs"))) [] (codes "t")
        ≡ Some (found (codes "t/../.git/w") (codes "t/../.git/w") IsBelow) }
    ensures given { Seeks (knows (variable (codes "GIT_DIR") (codes "x") ++ git_dir (codes "x"))) []
        (Inside [] (found (codes "x") (codes "x") IsGiven)) }
    ensures refused { Seeks (knows (variable (codes "GIT_DIR") (codes "x") ++ git_dir (codes ".git"))) [] (Refused (codes "x")) }
    ensures above { Seeks (knows (current (codes "/a/b") ++ git_dir (codes "/a/.git"))) []
        (Inside (codes "/a") (found (codes "/a/.git") (codes ".git") IsBelow)) }
    ensures at_ceiling { Seeks (knows (variable (codes "GIT_CEILING_DIRECTORIES") (codes "x:/a") ++ current (codes "/a/b")
        ++ git_dir (codes "/a/.git"))) [] Nowhere }
    ensures at_device { Seeks (knows (told DEVICE (codes ".") (codes "1") ++ told DEVICE (codes "/a") (codes "12") ++ current (codes "/a/b")
        ++ git_dir (codes "/a/.git"))) [] Nowhere }
{}
