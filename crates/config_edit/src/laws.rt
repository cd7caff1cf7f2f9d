//! Laws of edits: what is got from a text in which a key was set, and what a clone of a change is.
ghost use Rattle.std.specs.Prelude.{ℕ, List, [], codes, ◌≡◌, ◌≤◌, ◌+◌, ◌⊎◌, ◌∷◌, ◌++◌, Option, Some, None, length, true};
ghost use Rattle.config_file.specs.Bytes.{BeginsWithLetter, is_comment_byte, is_comment_sign};
ghost use Rattle.config_file.specs.Runs.{Run};
ghost use Rattle.config_file.specs.Header.{Section};
ghost use Rattle.config_edit.specs.Edit.{AddsOne, ChangesEntries, Content, Decides, HasNone, HasNoneAt, HasOneReason, HasSeveral, IsChange, Never, RefusesChanges, RefusesEdit, ReplacesAll, Sets};
ghost use Rattle.config_edit.specs.Unset.{Unsets, UnsetsAll, UnsetsEach};
ghost use Rattle.config_edit.specs.Cut.{Cuts, Part};
ghost use Rattle.config_edit.specs.Sections.{LacksSection, RefusesRemoval, RefusesRenaming, RemovesSection, RenamesSection};
ghost use Rattle.config_edit.specs.declared.EditError.TheVariants.{Absent};
ghost use Rattle.config_text.specs.Orders.{IsCopied};

use crate::Change;

/// After an edit that sets a key, its last entry has the value. So this is the value that a program gets.
pub fn set_decides()
    ensures set { (name value old new : List ℕ) → Sets name value old new → Decides name value new }
    ensures replaced { (name value old new : List ℕ) → ReplacesAll name value old new → Decides name value new }
    ensures added { (name value old new : List ℕ) → AddsOne name value old new → Decides name value new }
{}

/// An edit makes one text of a text: for one key and one value [`crate::set`], [`crate::replace_all`] and [`crate::add`] have
/// one result, and so has [`crate::change_entries`] for the same changes.
pub fn one_result()
    ensures set { (name value old new other : List ℕ) → Sets name value old new → Sets name value old other → new ≡ other }
    ensures replaced { (name value old new other : List ℕ)
        → ReplacesAll name value old new → ReplacesAll name value old other → new ≡ other }
    ensures added { (name value old new other : List ℕ) → AddsOne name value old new → AddsOne name value old other → new ≡ other }
    ensures changed { (changes : List Change) (old new other : List ℕ)
        → ChangesEntries changes old new → ChangesEntries changes old other → new ≡ other }
{}

/// A text is cut in its parts in one way. So what an edit makes of each part is what it makes of the text.
pub fn one_cut()
    ensures { (text : List ℕ) (parts also : List Part) → Cuts text parts → Cuts text also → parts ≡ also }
{}

/// A text has one new text in which sections have another name, and one without the sections of a name.
pub fn one_text_of_sections()
    ensures renamed { (old_name new_name old new other : List ℕ) → RenamesSection old_name new_name old new
        → RenamesSection old_name new_name old other → new ≡ other }
    ensures removed { (name old new other : List ℕ) → RemovesSection name old new → RemovesSection name old other → new ≡ other }
{}

/// Where sections went, no header of their name is left: to remove them again is refused.
pub fn sections_are_gone()
    ensures { (name old new : List ℕ) → RemovesSection name old new → LacksSection name new }
{}

/// Sections that get another name: Git writes the same texts. A header in a comment keeps its name.
pub fn renamed_texts()
    ensures comment { (new : List ℕ) → RenamesSection (codes "a") (codes "b") (codes "#[a]\n[a]\nk=1\n") new
        → new ≡ codes "#[a]\n[b]\nk=1\n" }
    ensures both { (new : List ℕ) → RenamesSection (codes "a") (codes "b") (codes "[a]\n[a]\nk=1\n") new
        → new ≡ codes "[b]\n[b]\nk=1\n" }
    ensures subsection { (new : List ℕ) → RenamesSection (codes "a") (codes "b.C") (codes "[a]\nk=1\n") new
        → new ≡ codes "[b \"C\"]\nk=1\n" }
    ensures not_absent { RefusesRenaming (codes "a") (codes "b") (codes "[a]\n") Absent → ⊥ }
{}

/// Sections that go: Git writes the same texts.
pub fn removed_texts()
    ensures alone { (new : List ℕ) → RemovesSection (codes "a") (codes "[a]\n") new → new ≡ [] }
    ensures both { (new : List ℕ) → RemovesSection (codes "a") (codes "[a]\n[a]\nk=1\n") new → new ≡ [] }
    ensures between { (new : List ℕ) → RemovesSection (codes "a") (codes "[b]\n[a]\n[c]\n") new
        → new ≡ codes "[b]\n[c]\n" }
    ensures not_absent { RefusesRemoval (codes "a") (codes "[a]\n") Absent → ⊥ }
{}

/// What `set` makes of some texts, one of them of git-config(1), and what it does not make of them.
pub fn set_texts()
    ensures empty { Sets (codes "a.k") (codes "2") (codes "[a]\nk =# me\n") (codes "[a]\nk = 2 # me\n") }
    ensures commented { Sets (codes "a.k") (codes "2") (codes "[a]\nk = 1 # me\n\n# About b\n[b]\nl=3\n")
        (codes "[a]\nk = 2 # me\n\n# About b\n[b]\nl=3\n") }
    ensures below_comment { Sets (codes "core.filemode") (codes "true") (codes "[core]\n\t; Don't trust file modes\n\tfilemode = false\n")
        (codes "[core]\n\t; Don't trust file modes\n\tfilemode = true\n") }
    ensures no_comment_lost { Sets (codes "a.k") (codes "2") (codes "[a]\nk =# me\n") (codes "[a]\nk =2\n") → ⊥ }
    ensures no_lines_lost { Sets (codes "a.k") (codes "2") (codes "[a]\nk = 1 # me\n\n# About b\n[b]\nl=3\n")
        (codes "[a]\nk = 2\n[b]\nl=3\n") → ⊥ }
{}

/// What `replace_all` makes of some texts, one of them of git-config(1), and what it does not make of them.
pub fn replaced_texts()
    ensures commented { ReplacesAll (codes "a.k") (codes "2") (codes "# Do not touch\n[a]\nk =1 # me\n# x\n")
        (codes "# Do not touch\n[a]\nk =2 # me\n# x\n") }
    ensures several { ReplacesAll (codes "a.k") (codes "3") (codes "[a]\n\tk = 1\n\tj = 0\n\tk = 2\n")
        (codes "[a]\n\tj = 0\n\tk = 3\n") }
    ensures with_comment { ReplacesAll (codes "core.gitproxy") (codes "ssh")
        (codes "[core]\n\tgitproxy=proxy-command for kernel.org\n\tgitproxy=default-proxy ; for all the rest\n")
        (codes "[core]\n\tgitproxy=ssh ; for all the rest\n") }
    ensures no_comment_changed { ReplacesAll (codes "a.k") (codes "2") (codes "# Do not touch\n[a]\nk =1 # me\n# x\n")
        (codes "# 2\n[a]\nk =2\n") → ⊥ }
{}

/// What `add` makes of some texts, as Git does, one of them of git-config(1), and what it does not make of them.
pub fn added_texts()
    ensures above_comment { AddsOne (codes "a.k") (codes "1") (codes "[a]\n# b # c\n") (codes "[a]\n\tk = 1\n# b # c\n") }
    ensures new_section { AddsOne (codes "a.k") (codes "1") (codes "[b]\n\tl = 3") (codes "[b]\n\tl = 3\n[a]\n\tk = 1\n") }
    ensures behind_comment { AddsOne (codes "core.gitproxy") (codes "\"proxy-command\" for example.com")
        (codes "[core]\n\tgitproxy=default-proxy ; for all the rest\n\n; HTTP\n[http]\n\tsslVerify\n")
        (codes "[core]\n\tgitproxy=default-proxy ; for all the rest\n\tgitproxy = \\\"proxy-command\\\" for example.com\n\n; HTTP\n[http]\n\tsslVerify\n") }
    ensures no_comment_cut { AddsOne (codes "a.k") (codes "1") (codes "[a]\n# b # c\n") (codes "[a]\n# b \r\n\tk = 1\r\n# c\n") → ⊥ }
    ensures no_other_spelling { AddsOne (codes "a.k") (codes "1") (codes "[a]\n# b # c\n") (codes "[a]\n\tk = \"\\\n1\"\n# b # c\n") → ⊥ }
{}

/// What `change_entries` makes of some texts, as Git does, one of them of git-config(1), and what it does not make of them.
pub fn changed_texts()
    ensures commented { (change : Change) → IsChange change 0 None (Some (codes "2")) None
        → ChangesEntries (change ∷ []) (codes "[a]\nk=1# me\n") (codes "[a]\nk=2# me\n") }
    ensures several { (first second : Change) → IsChange first 0 (Some (codes "email")) None None
        → IsChange second 1 None (Some (codes "C")) (Some (codes "mine"))
        → ChangesEntries (first ∷ second ∷ []) (codes "[user]\n\temial = A # me\n\tname = B\n")
        (codes "[user]\n\temail = A # me\n\tname = C # mine\n") }
    ensures key_alone { (change : Change) → IsChange change 0 None (Some (codes "false")) None
        → ChangesEntries (change ∷ []) (codes "[http]\n\tsslVerify\n") (codes "[http]\n\tsslVerify = false\n") }
    ensures no_comment_lost { (change : Change) → IsChange change 0 None (Some (codes "2")) None
        → ¬ (ChangesEntries (change ∷ []) (codes "[a]\nk=1# me\n") (codes "[a]\nk=2\n")) }
{}

/// An edit that takes entries of a key out has one result.
pub fn one_unset()
    ensures one { (name old new other : List ℕ) → Unsets name old new → Unsets name old other → new ≡ other }
    ensures each { (places : Option (List ℕ)) (name old new other : List ℕ)
        → UnsetsEach places name old new → UnsetsEach places name old other → new ≡ other }
{}

/// What `unset` and `unset_all` make of some texts, as Git does, and what they do not make of them.
pub fn unset_texts()
    ensures emptied { Unsets (codes "a.k") (codes "[a]\nk=1\n") [] }
    ensures commented { Unsets (codes "a.k") (codes "[a]\nk=1# me\n") [] }
    ensures below { Unsets (codes "a.k") (codes "#[a]\n[a]\nk=1\n") (codes "#[a]\n[a]\n") }
    ensures all_commented { UnsetsAll (codes "a.k") (codes "[a]\nk=1# me\n") [] }
    ensures all_below { UnsetsAll (codes "a.k") (codes "#k=0\n[a]\nk=1\n") (codes "#k=0\n[a]\n") }
    ensures in_line { UnsetsAll (codes "a.k") (codes "[a]k=1\nj=0\n") (codes "[a]\nj=0\n") }
    ensures no_blank_line { UnsetsAll (codes "a.k") (codes "[a]\nk=1\n") (codes "[a]\n\n") → ⊥ }
    ensures no_comment { UnsetsAll (codes "a.k") (codes "[a]\nk=1# me\n") (codes "[a]\n# me\n") → ⊥ }
    ensures no_setting_lost { UnsetsAll (codes "a.k") (codes "#k=0\n[a]\nk=1\n") (codes "#\n[a]\n") → ⊥ }
    ensures no_header_lost { Unsets (codes "a.k") (codes "#[a]\n[a]\nk=1\n") (codes "#\n[a]\n") → ⊥ }
    ensures no_other_header { UnsetsAll (codes "a.k") (codes "[a]\n[a]\nj=0\n") (codes "[a]\nj=0\n") → ⊥ }
{}

/// An edit is refused for one reason, or for want of memory.
pub fn one_refusal()
    ensures set { (name value text : List ℕ) → HasOneReason (RefusesEdit HasSeveral Never name (Some value) text) }
    ensures added { (name value text : List ℕ) → HasOneReason (RefusesEdit Never Never name (Some value) text) }
    ensures unset { (name text : List ℕ) → HasOneReason (RefusesEdit HasSeveral HasNone name None text) }
    ensures each { (places : Option (List ℕ)) (name text : List ℕ)
        → HasOneReason (RefusesEdit Never (HasNoneAt places) name None text) }
    ensures changed { (changes : List Change) (text : List ℕ) → HasOneReason (RefusesChanges changes text) }
    ensures renaming { (old new text : List ℕ) → HasOneReason (RefusesRenaming old new text) }
    ensures removal { (name text : List ℕ) → HasOneReason (RefusesRemoval name text) }
{}

/// A clone of a change of an entry is the same, and never fails.
pub fn changes()
    ensures { IsCopied ⟦<Change<'static> as Clone>⟧.is_clone ⟦<Change<'static> as Clone>⟧.is_infallible }
{}
