//! A run over files, each of which is checked once, and over the files that they include.

use crate::aliases::Aliases;
use crate::baseline::fingerprints;
use crate::changes::{
    Changed, Mended, Mender, Unchanged, change_file, changed_text, heed_rivals, keep_lines,
};
use crate::diff::diff_of;
use crate::failure::{Failure, failed, tell, written};
use crate::options::{Format, Output, Request};
use crate::report::{Held, Lines, Report, counts_of};
use crate::rows::{Must, Rows, built_in, knows_all, settings_for};
use crate::sarif;
use crate::source::Source;
use bstr::BStr;
use bumpalo::Bump;
use config_checks::check::{Counts, Receiver, check_file};
use config_checks::finding::key_text;
use config_checks::git::{MODULES, SETTINGS};
use config_checks::key::covers;
use config_checks::mending::Proposal;
use config_checks::options::Options;
use config_checks::outcome::Outcome;
use config_checks::paths::{self, is_homeless};
use config_checks::row::Row;
use config_checks::setting::Setting;
use config_checks::shape::is_submodule_name;
use config_checks::wrong::{Wrong, wrong_finding};
use config_file::bytes::line_feeds;
use config_file::key::Key;
use config_file::{
    Condition, Content, Directories, Entries, Entry, FilePlace, Files, Include, Includes, Known,
    Step, Walk,
};
use config_host::environment::kept_variable;
use config_host::{Disk, Users, files_here};
use config_search::includes::has_include;
use gix_config_value::path::parts::joint_of;
use std::alloc::{AllocError, Global};
use std::collections::BTreeSet;
use std::io::{BufWriter, IsTerminal, Write};
use std::mem;

/// For how many files no more is read than the rows of their own sections. Later ones are worth that all rows are
/// read once.
const FEW_FILES: usize = 8;

/// Why Git cannot read an included file without a name: it opens the folder of the file that includes it.
const NO_NAME: &str = "the path is empty, and so names a folder, at which Git stops";

const UNNAMED: &str = "--fix changes only files that are named: name one";

const UNCHANGEABLE: &str = "--fix cannot change standard input: try --diff";

const TERMINAL: &str =
    "standard input is a terminal: name a file, or redirect one: config_check - < FILE";

/// The file name that means standard input.
const STDIN: &[u8] = b"-";

/// What a walk knows that follows all includes, whatever their conditions, with this home directory.
fn following_all(home: Option<&[u8]>) -> Known<'_> {
    Known {
        directories: Directories {
            home,
            install_dir: None,
        },
        includes: Includes::All,
    }
}

/// Adds an item.
fn add<T: Drop>(items: &mut Vec<T>, item: T) -> Result<(), AllocError> {
    Ok(items.push(item)?)
}

/// The names of files, which are kept.
fn named<'t>(alloc: Global, disk: &Disk<'t>, names: &[&str]) -> Result<Vec<&'t [u8]>, AllocError> {
    let mut found = Vec::new(alloc);
    for name in names {
        found.push(disk.kept(name.as_bytes())?)?;
    }
    Ok(found)
}

/// A run over files, each of which is checked once.
#[derive(Drop)]
struct Checking<'c, 't> {
    rt: &'t HostRuntime,
    /// All rows, as soon as they are read.
    rows: Option<Vec<Row<'c>>>,
    /// How many files are checked by the rows of their own sections before all rows are read.
    by_sections: usize,
    /// The settings that rows ask for.
    musts: Vec<Must<'c, 'c>>,
    aliases: Aliases<'t>,
    request: &'c Request<'c, 'c>,
    options: Options<'t>,
    report: Report<'c>,
    disk: Disk<'t>,
    /// The home directory, in which files are that begin with `~/`.
    home: Option<&'t [u8]>,
    /// The real names of the files that are checked, or named and checked later.
    seen: BTreeSet<Vec<u8>>,
    /// The files that are open: each is included by the one before.
    open: Vec<Source<'t>>,
    outcome: Outcome,
    /// How many entries are changed.
    fixed: usize,
}

/// Writes a finding about a setting that no row judges by its value.
fn write_wrong<'f>(
    rt: &HostRuntime,
    report: &mut Report<'_>,
    source: &mut Source<'_>,
    setting: &'f Setting<'f>,
    row: Option<Key<'f>>,
    wrong: Wrong<'f>,
) -> Result<(), Failure<'static>> {
    let mut lines = Lines {
        alloc: rt.alloc(),
        rows: &[],
        report,
        source,
        mender: None,
        collects: false,
        fixes: Vec::new(rt.alloc()),
        writer: rt.stdout(),
    };
    let finding = wrong_finding(setting, row, wrong);
    failed(lines.receive(Some(setting), &finding))
}

/// What a check of a text does besides counting.
#[derive(Drop)]
enum Pass {
    /// It writes the findings, of which these changes mend some.
    Writes(Vec<Mended>),
    /// It writes the findings, and looks for changes.
    Both,
    /// It only looks for changes, of which some may be guesses.
    Looks { guesses: bool },
}

/// What a check of a text gives: its counts, and what mends it if that is looked for and something is suggested.
#[derive(Drop)]
struct Looked {
    counts: Counts,
    changed: Option<Result<Changed, Unchanged>>,
}

/// Counts without these others.
fn less(counts: Counts, others: Counts) -> Counts {
    Counts {
        entries: counts.entries,
        unknown: counts.unknown.saturating_sub(others.unknown),
        findings: counts.findings.saturating_sub(others.findings),
        errors: counts.errors.saturating_sub(others.errors),
        warnings: counts.warnings.saturating_sub(others.warnings),
    }
}

/// Whether a file is one of those in which Git reads about submodules.
fn is_modules(file: &str) -> bool {
    file == ".gitmodules" || file.ends_with("/.gitmodules")
}

/// The name of the submodule that a key is about.
fn submodule_of<'k>(key: &'k [u8]) -> Option<&'k [u8]> {
    let key = Key::split(key)?;
    if key.section().eq_ignore_ascii_case(b"submodule") {
        key.subsection()
    } else {
        None
    }
}

/// The first setting of each submodule of a text whose name Git does not take.
fn misnamed<'t>(
    alloc: Global,
    file: &'t str,
    text: &'t [u8],
) -> Result<Vec<Setting<'t>>, AllocError> {
    let mut seen = BTreeSet::new(alloc);
    let mut found = Vec::new(alloc);
    for entry in Entries::new(text) {
        let Ok(entry) = entry else {
            break;
        };
        let setting = Setting::of_entry(alloc, file, &entry)?;
        let Some(name) = submodule_of(&setting.key) else {
            continue;
        };
        if !is_submodule_name(name) && seen.insert(name.to_vec(alloc)?)? {
            found.push(setting)?;
        }
    }
    Ok(found)
}

/// Whether the path that an entry includes is empty.
fn has_no_path(alloc: Global, entry: &Entry<'_>) -> Result<bool, AllocError> {
    match &entry.value {
        Some(value) => Ok(value.text(alloc)?.is_empty()),
        None => Ok(false),
    }
}

/// Whether a path that an entry includes begins at the root or in a home directory, and not in the folder of
/// the file.
fn is_from_root(alloc: Global, entry: &Entry<'_>) -> Result<bool, AllocError> {
    let Some(value) = &entry.value else {
        return Ok(false);
    };
    let path = value.text(alloc)?;
    Ok(path.starts_with(b"/") || path.starts_with(b"~") || path.starts_with(b"%("))
}

impl<'c, 't> Checking<'c, 't> {
    /// Reports a file that cannot be read, by this text.
    fn refuse(&mut self, text: Result<String, AllocError>) {
        self.outcome.is_unread = true;
        tell(self.rt, text);
    }

    /// The text of a file, or of standard input, and its place. Reports a failed read.
    fn read(&mut self, name: &[u8]) -> Result<Option<(FilePlace<'t>, &'t [u8])>, Failure<'static>> {
        let found = if name == STDIN {
            let place = FilePlace {
                name: STDIN,
                real_dir: b"",
            };
            match self.disk.text(self.rt.stdin(), None) {
                Ok(text) => Ok((place, text)),
                Err(error) => Err(error),
            }
        } else {
            self.disk.first(name)
        };
        match found {
            Ok(found) => Ok(Some(found)),
            Err(error) if error.is_memory() => Err(Failure::Memory(AllocError)),
            Err(error) => {
                let name = BStr::new(name);
                self.refuse(format!(in self.rt.alloc(); "config_check: {name}: {error}"));
                Ok(None)
            }
        }
    }

    /// Checks the text of a file, which is open from now on, and adds its counts. Returns the text: if the
    /// file is named and may be changed, that is its new one.
    fn check(
        &mut self,
        name: &'t [u8],
        text: &'t [u8],
        is_named: bool,
    ) -> Result<&'t [u8], Failure<'static>> {
        let Ok(file) = str::from_utf8(name) else {
            return Ok(text);
        };
        let (text, counts) = match self.request.output {
            Output::Fixed if is_named => self.mend(file, text)?,
            Output::Diff if is_named => (text, self.show_changes(file, text)?),
            _ => (text, self.judge(file, text)?),
        };
        self.outcome.add(counts);
        add(&mut self.open, Source::new(name, text))?;
        if is_modules(file) {
            self.judge_submodules(file, text)?;
        }
        self.aliases.add_file(self.rt.alloc(), file, text)?;
        Ok(text)
    }

    /// Takes note that a file has a setting, if rows ask for it.
    fn meet(&mut self, entry: &Entry<'_>) -> Result<(), AllocError> {
        if self.musts.is_empty() {
            return Ok(());
        }
        let key = entry.key_text(self.rt.alloc())?;
        let Some(key) = Key::split(&key) else {
            return Ok(());
        };
        for must in self.musts.iter_mut() {
            must.is_met |= covers(&must.key, &key);
        }
        Ok(())
    }

    /// Writes a finding that no row gives about a setting of a text, and counts it.
    fn tell(
        &mut self,
        setting: &Setting<'_>,
        text: &[u8],
        row: Option<Key<'_>>,
        wrong: Wrong<'_>,
    ) -> Result<(), Failure<'static>> {
        let mut source = Source::new(setting.file.as_bytes(), text);
        write_wrong(self.rt, &mut self.report, &mut source, setting, row, wrong)?;
        self.outcome.add(counts_of(wrong.severity()));
        Ok(())
    }

    /// Reports the submodules whose names Git does not take.
    fn judge_submodules(&mut self, file: &'t str, text: &'t [u8]) -> Result<(), Failure<'static>> {
        for setting in misnamed(self.rt.alloc(), file, text)? {
            self.tell(&setting, text, None, Wrong::SubmoduleName)?;
        }
        Ok(())
    }

    /// Reports the aliases since the last report that lead to no command.
    fn report_aliases(&mut self) -> Result<(), Failure<'static>> {
        if self.aliases.all.is_empty() {
            return Ok(());
        }
        let alloc = self.rt.alloc();
        let aliases = mem::replace(&mut self.aliases, Aliases::new(alloc)?);
        let are_endless = aliases.are_endless(alloc)?;
        for (alias, is_endless) in aliases.all.iter().zip(are_endless.iter()) {
            if *is_endless {
                self.tell(&alias.setting, alias.text, None, Wrong::EndlessAlias)?;
            }
        }
        Ok(())
    }

    /// Reports the settings that rows ask for and no file has.
    fn report_missing(&mut self) -> Result<(), Failure<'static>> {
        for must in &self.musts {
            if must.is_met {
                continue;
            }
            let setting = Setting {
                file: must.file,
                line: must.line,
                last: must.line,
                key: key_text(self.rt.alloc(), &must.key)?,
                value: None,
            };
            let mut source = Source::new(must.file.as_bytes(), must.text);
            write_wrong(
                self.rt,
                &mut self.report,
                &mut source,
                &setting,
                Some(must.key),
                Wrong::MissingSetting,
            )?;
            self.outcome
                .add(counts_of(Wrong::MissingSetting.severity()));
        }
        Ok(())
    }

    /// Checks the text of a file by these rows.
    fn look(
        &mut self,
        rows: &[Row<'_>],
        file: &'t str,
        text: &'t [u8],
        pass: Pass,
    ) -> Result<Looked, Failure<'static>> {
        let alloc = self.rt.alloc();
        let collects = matches!(pass, Pass::Looks { .. });
        let mut guesses = self.request.guesses;
        let mut mender = Some(Mender::new(alloc, self.disk.again()));
        let mut fixes = Vec::new(alloc);
        match pass {
            Pass::Writes(known) => {
                mender = None;
                fixes = known;
            }
            Pass::Both => {}
            Pass::Looks { guesses: wanted } => guesses = wanted,
        }
        fixes.reverse();
        let (counts, proposals) = self.proposed(rows, file, text, mender, collects, fixes)?;
        let changed = self.changed_by(rows, guesses, file, text, proposals)?;
        Ok(Looked { counts, changed })
    }

    /// The counts of a text that is checked by these rows, and what is proposed for it, if that is kept.
    fn proposed(
        &mut self,
        rows: &[Row<'_>],
        file: &'t str,
        text: &'t [u8],
        mender: Option<Mender<'t>>,
        collects: bool,
        fixes: Vec<Mended>,
    ) -> Result<(Counts, Vec<Proposal<'t>>), Failure<'static>> {
        let alloc = self.rt.alloc();
        let options = self.options;
        let writer = written(BufWriter::new(alloc, self.rt.stdout()))?;
        let mut source = Source::new(file.as_bytes(), text);
        let mut lines = Lines {
            alloc,
            rows,
            report: &mut self.report,
            source: &mut source,
            mender,
            collects,
            fixes,
            writer,
        };
        let checked = check_file(alloc, rows, &options, file, text, &mut lines);
        written(lines.flush())?;
        let counts = failed(checked)?;
        let proposals = match lines.mender.take() {
            Some(mender) => mender.proposals,
            None => Vec::new(alloc),
        };
        Ok((counts, proposals))
    }

    /// What becomes of a text that is checked by these rows, if something is proposed for it.
    fn changed_by(
        &self,
        rows: &[Row<'_>],
        guesses: bool,
        file: &'t str,
        text: &'t [u8],
        mut proposals: Vec<Proposal<'t>>,
    ) -> Result<Option<Result<Changed, Unchanged>>, AllocError> {
        let alloc = self.rt.alloc();
        if proposals.is_empty() {
            return Ok(None);
        }
        heed_rivals(alloc, &self.disk, file.as_bytes(), text, &mut proposals)?;
        Ok(Some(changed_text(alloc, rows, &self.options, guesses, file, text, &proposals)?))
    }

    /// All rows, which are read if they are not yet.
    fn all_rows(&mut self) -> Result<Vec<Row<'c>>, Failure<'static>> {
        match self.rows.take() {
            Some(rows) => Ok(rows),
            None => built_in(self.rt.alloc(), self.request.git, SETTINGS.as_bytes()),
        }
    }

    /// Does the same as [`Checking::look`] by the rows for files `.gitmodules`, and all others behind them.
    fn look_as_modules(
        &mut self,
        file: &'t str,
        text: &'t [u8],
        pass: Pass,
    ) -> Result<Looked, Failure<'static>> {
        let alloc = self.rt.alloc();
        let mut rows = built_in(alloc, self.request.git, MODULES.as_bytes())?;
        let count = rows.len();
        for row in self.all_rows()? {
            add(&mut rows, row)?;
        }
        let looked = self.look(&rows, file, text, pass);
        let mut others = Vec::new(alloc);
        for row in rows.into_iter().skip(count) {
            add(&mut others, row)?;
        }
        self.rows = Some(others);
        looked
    }

    /// Does the same as [`Checking::look`] by all rows.
    fn look_by_all(
        &mut self,
        file: &'t str,
        text: &'t [u8],
        pass: Pass,
    ) -> Result<Looked, Failure<'static>> {
        if is_modules(file) {
            return self.look_as_modules(file, text, pass);
        }
        let rows = self.all_rows()?;
        let looked = self.look(&rows, file, text, pass);
        self.rows = Some(rows);
        looked
    }

    /// Whether a text may be checked by the rows of its own sections.
    fn is_by_sections(&mut self, text: &[u8]) -> bool {
        if self.rows.is_some() || self.by_sections == 0 || has_include(text) {
            return false;
        }
        self.by_sections = self.by_sections.saturating_sub(1);
        true
    }

    /// Checks the text of a file by these built-in rows, and writes its findings. `None` if they lack a key, of
    /// which other rows may know more.
    fn judge_by(
        &mut self,
        settings: &[u8],
        file: &'t str,
        text: &'t [u8],
    ) -> Result<Option<Counts>, Failure<'static>> {
        let alloc = self.rt.alloc();
        let rows = built_in(alloc, self.request.git, settings)?;
        let is_known = knows_all(alloc, &rows, text)?;
        if !is_known {
            return Ok(None);
        }
        let looked = self.look(&rows, file, text, Pass::Writes(Vec::new(alloc)))?;
        Ok(Some(looked.counts))
    }

    /// Whether what is written tells which findings can be mended.
    fn tells_fixes(&self) -> bool {
        matches!(self.request.style.format, Format::Json | Format::Sarif)
            && matches!(self.request.output, Output::Findings | Output::Fixed)
    }

    /// The changes of this text of which is told, with their lines if these are told too.
    fn changes_of(
        &self,
        text: &[u8],
        changed: Option<Result<Changed, Unchanged>>,
    ) -> Result<Vec<Mended>, AllocError> {
        let alloc = self.rt.alloc();
        match changed {
            Some(Ok(changed)) => {
                let mut changed = changed;
                if self.is_sarif() {
                    keep_lines(alloc, text, &mut changed)?;
                }
                Ok(changed.changes)
            }
            Some(Err(_why)) => Ok(Vec::new(alloc)),
            None => Ok(Vec::new(alloc)),
        }
    }

    /// Checks the text of a file, and writes its findings with what mends them.
    fn judge_and_tell(
        &mut self,
        file: &'t str,
        text: &'t [u8],
    ) -> Result<Counts, Failure<'static>> {
        let looks = Pass::Looks { guesses: true };
        let Looked { counts, changed } = self.look_by_all(file, text, looks)?;
        if counts.findings == 0 {
            return Ok(counts);
        }
        let changes = self.changes_of(text, changed)?;
        Ok(self.look_by_all(file, text, Pass::Writes(changes))?.counts)
    }

    /// Checks the text of a file, and writes its findings.
    fn judge(&mut self, file: &'t str, text: &'t [u8]) -> Result<Counts, Failure<'static>> {
        if self.tells_fixes() {
            return self.judge_and_tell(file, text);
        }
        if !is_modules(file) && self.is_by_sections(text) {
            if let Some(settings) = settings_for(self.rt.alloc(), text)? {
                if let Some(counts) = self.judge_by(&settings, file, text)? {
                    return Ok(counts);
                }
            }
        }
        let pass = Pass::Writes(Vec::new(self.rt.alloc()));
        Ok(self.look_by_all(file, text, pass)?.counts)
    }

    /// Writes the findings that were held of a text, but for those of the entries that are changed. Returns the counts
    /// of the others.
    fn write_held(
        &mut self,
        held: &[Held],
        changes: &[Mended],
        counts: Counts,
    ) -> Result<Counts, Failure<'static>> {
        let mut writer = written(BufWriter::new(self.rt.alloc(), self.rt.stdout()))?;
        let mut counts = counts;
        let mut left = changes;
        for finding in held {
            let others = match left.split_first() {
                Some((change, others)) if finding.entry == Some(change.entry as u64) => Some(
                    others,
                ),
                _ => None,
            };
            if let Some(others) = others {
                left = others;
                counts = less(counts, finding.counts());
            } else if self.report.counts_held(finding) {
                written(writer.write_all(&finding.text))?;
            }
        }
        written(writer.flush())?;
        Ok(counts)
    }

    /// Mends a file, and writes the findings that are left. Returns its text, which is the old one if nothing mends it or it
    /// is not changed, with its counts. Other entries keep their findings, and so are not checked again, unless lines move.
    fn mend(
        &mut self,
        file: &'t str,
        text: &'t [u8],
    ) -> Result<(&'t [u8], Counts), Failure<'static>> {
        let looks = Pass::Looks {
            guesses: self.request.guesses,
        };
        self.report.hold(self.rt.alloc());
        let Looked { counts, changed } = self.look_by_all(file, text, looks)?;
        if counts.findings == 0 {
            return Ok((text, counts));
        }
        let (new, changes) = self.change(file, text, changed)?;
        let Some(held) = self.report.held.take() else {
            return Ok((new, self.judge(file, new)?));
        };
        if line_feeds(new) != line_feeds(text) {
            return Ok((new, self.judge(file, new)?));
        }
        let counts = self.write_held(&held, &changes, counts)?;
        Ok((new, counts))
    }

    /// Makes these changes in a file. Returns its text, which is the old one if there are none or it is not changed, and
    /// the changes that are made.
    fn change(
        &mut self,
        file: &'t str,
        text: &'t [u8],
        changed: Option<Result<Changed, Unchanged>>,
    ) -> Result<(&'t [u8], Vec<Mended>), Failure<'static>> {
        let alloc = self.rt.alloc();
        let Some(changed) = self.some_changes(file, changed) else {
            return Ok((text, Vec::new(alloc)));
        };
        match change_file(&self.disk, file.as_bytes(), text, &changed.text) {
            Ok(()) => {
                self.fixed = self.fixed.saturating_add(changed.changes.len());
                let Changed { changes, text } = changed;
                Ok((self.disk.kept(&text)?, changes))
            }
            Err(error) => {
                self.refuse(format!(in alloc; "config_check: {file}: {error}"));
                Ok((text, Vec::new(alloc)))
            }
        }
    }

    /// The changes of a file, if there are some. Reports why they cannot be made.
    fn some_changes(
        &mut self,
        file: &str,
        changed: Option<Result<Changed, Unchanged>>,
    ) -> Option<Changed> {
        match changed? {
            Ok(changed) if changed.changes.is_empty() => None,
            Ok(changed) => Some(changed),
            Err(error) => {
                self.refuse(format!(in self.rt.alloc(); "config_check: {file}: {error}"));
                None
            }
        }
    }

    /// Checks the text of a file, and shows what would be changed in it.
    fn show_changes(&mut self, file: &'t str, text: &'t [u8]) -> Result<Counts, Failure<'static>> {
        let alloc = self.rt.alloc();
        let Looked { counts, changed } = self.look_by_all(file, text, Pass::Both)?;
        if let Some(changed) = self.some_changes(file, changed) {
            let diff = diff_of(alloc, file, text, &changed.text, &changed.changes)?;
            written(self.rt.stdout().write_all(&diff))?;
        }
        Ok(counts)
    }

    /// Closes the files that are open after the one of this name.
    fn close_after(&mut self, name: &[u8]) {
        for _ in 0..self.open.len() {
            match self.open.last() {
                Some(source) if source.name != name => {
                    let count = self.open.len().saturating_sub(1);
                    self.open.truncate(count);
                }
                _ => break,
            }
        }
    }

    /// Writes a finding about what an entry includes, and counts it.
    fn report(
        &mut self,
        place: FilePlace<'t>,
        entry: &Entry<'t>,
        wrong: Wrong<'_>,
    ) -> Result<(), Failure<'static>> {
        let Ok(file) = str::from_utf8(place.name) else {
            return Ok(());
        };
        let alloc = self.rt.alloc();
        let setting = Setting::of_entry(alloc, file, entry)?;
        self.close_after(place.name);
        if let Some(source) = self.open.last_mut() {
            write_wrong(self.rt, &mut self.report, source, &setting, None, wrong)?;
        }
        self.outcome.add(counts_of(wrong.severity()));
        Ok(())
    }

    /// The name by which an included file is read: below the folder of `--root`, if there is one and the path
    /// begins at the root.
    fn rooted(&self, entry: &Entry<'t>, name: Vec<u8>) -> Result<Vec<u8>, AllocError> {
        let alloc = self.rt.alloc();
        let Some(root) = self.request.root else {
            return Ok(name);
        };
        if !is_from_root(alloc, entry)? {
            return Ok(name);
        }
        let mut rooted = root.as_bytes().to_vec(alloc)?;
        rooted.extend_from_slice(&name)?;
        Ok(rooted)
    }

    /// Whether one of the files that the walk is in has this real name.
    fn is_within(&self, walk: &Walk<'t>, real: &[u8]) -> Result<bool, Failure<'static>> {
        for frame in walk.frames() {
            if self.disk.real_name(frame.place.name)?.as_slice() == real {
                return Ok(true);
            }
        }
        Ok(false)
    }

    /// Checks the file of this name, which an entry of the file at this place includes, and goes on in it.
    /// Reports an include at which Git stops, and a missing file. Passes a file that is checked already, and
    /// relative names of standard input.
    fn include(
        &mut self,
        walk: &mut Walk<'t>,
        place: FilePlace<'t>,
        entry: &Entry<'t>,
        name: Vec<u8>,
    ) -> Result<(), Failure<'static>> {
        let is_stdin = place.name == STDIN && place.real_dir.is_empty();
        if is_stdin && !name.starts_with(b"/") {
            return Ok(());
        }
        if has_no_path(self.rt.alloc(), entry)? {
            return self.report(place, entry, Wrong::Unreadable(NO_NAME));
        }
        let name = self.rooted(entry, name)?;
        let real = self.disk.real_name(&name)?;
        if self.is_within(walk, &real)? {
            return self.report(place, entry, Wrong::Loop);
        }
        if self.seen.contains(&real) {
            return Ok(());
        }
        match self.disk.read(self.rt.alloc(), &name)? {
            Content::Missing => return self.report(place, entry, Wrong::Missing),
            Content::Unreadable(why) => {
                let is_opened = str::from_utf8(&name).is_ok();
                let wrong = if is_opened {
                    Wrong::Unreadable(why)
                } else {
                    Wrong::Unread(why)
                };
                self.report(place, entry, wrong)?;
            }
            Content::Text(inner, text) => {
                if !walk.enter(inner, text) {
                    return self.report(place, entry, Wrong::TooDeep);
                }
                let _ = self.check(inner.name, text, false)?;
            }
        }
        self.remember(real)?;
        Ok(())
    }

    /// The name of the file that a path names in the home directory of a user. `None` if the path does not begin
    /// with one.
    fn name_at_user(&self, path: &[u8]) -> Result<Option<Vec<u8>>, AllocError> {
        let Some(users) = self.options.users else {
            return Ok(None);
        };
        let Ok(joint) = joint_of::<&[u8], &[u8]>(path, None, None, Some(users.passwd)) else {
            return Ok(None);
        };
        let mut name = joint.dir.unwrap_or(b"").to_vec(self.rt.alloc())?;
        name.extend_from_slice(joint.slash().as_bytes())?;
        name.extend_from_slice(joint.rest.as_bytes())?;
        Ok(Some(name))
    }

    /// Does the same as [`Checking::include`] for a path that begins with a directory which the walk does not
    /// know: the home directory of a user. Reports one that is not there, and passes `%(prefix)/`.
    fn include_unknown(
        &mut self,
        walk: &mut Walk<'t>,
        place: FilePlace<'t>,
        entry: &Entry<'t>,
    ) -> Result<(), Failure<'static>> {
        let Some(value) = &entry.value else {
            return Ok(());
        };
        let path = value.text(self.rt.alloc())?;
        if is_homeless(self.options.users, &path) {
            return self.report(place, entry, Wrong::NoHome);
        }
        match self.name_at_user(&path)? {
            Some(name) => self.include(walk, place, entry, name),
            None => Ok(()),
        }
    }

    /// Whether Git knows the condition of an entry that includes a file. Reports one that it does not know.
    fn knows_condition(
        &mut self,
        place: FilePlace<'t>,
        entry: &Entry<'t>,
    ) -> Result<bool, Failure<'static>> {
        let key = entry.key_text(self.rt.alloc())?;
        match Key::split(&key).and_then(|key| key.subsection()) {
            Some(text) if Condition::parse(text) == Condition::Unknown => {
                self.report(place, entry, Wrong::UnknownCondition)?;
                Ok(false)
            }
            _ => Ok(true),
        }
    }

    /// Remembers the real name of a file, and returns whether it is new.
    fn remember(&mut self, real: Vec<u8>) -> Result<bool, Failure<'static>> {
        match self.seen.insert(real) {
            Ok(is_new) => Ok(is_new),
            Err(_) => Err(Failure::Memory(AllocError)),
        }
    }

    /// Checks a file, and the files that it includes, in the order in which a walk comes to them.
    fn file(&mut self, name: &[u8]) -> Result<(), Failure<'static>> {
        let Some((place, text)) = self.read(name)? else {
            return Ok(());
        };
        self.open.clear();
        let text = self.check(place.name, text, true)?;
        if self.musts.is_empty() && (!self.request.follows || !has_include(text)) {
            return Ok(());
        }
        self.walk(Walk::new(place, text))
    }

    /// Takes note of the settings that a walk comes to, and checks the files that they include.
    fn walk(&mut self, mut walk: Walk<'t>) -> Result<(), Failure<'static>> {
        for _ in 0..u64::MAX {
            let step = walk.next(self.rt.alloc(), &following_all(self.home))?;
            let (place, entry, include) = match step {
                Step::Entry(place, entry, include) => (place, entry, include),
                Step::Line(..) => continue,
                Step::Ends => break,
            };
            self.meet(&entry)?;
            if !self.request.follows
                || matches!(include, Include::NotFollowed | Include::MissingValue)
            {
                continue;
            }
            if !self.knows_condition(place, &entry)? {
                continue;
            }
            match include {
                Include::Named(name) => self.include(&mut walk, place, &entry, name)?,
                _ => self.include_unknown(&mut walk, place, &entry)?,
            }
        }
        Ok(())
    }

    /// The files that are named, or those that Git reads in the current folder, each once.
    fn first_files(&mut self) -> Result<Vec<&'t [u8]>, Failure<'static>> {
        let alloc = self.rt.alloc();
        let found = match (self.request.files, self.request.output) {
            ([], Output::Fixed) => return Err(Failure::Whole(UNNAMED)),
            ([], _) => files_here(&self.disk)?,
            (names, _) => named(alloc, &self.disk, names)?,
        };
        let mut files = Vec::new(alloc);
        for name in found {
            let real = self.disk.real_name(name)?;
            if self.remember(real)? {
                add(&mut files, name)?;
            }
        }
        Ok(files)
    }

    /// The counts of what is reported.
    fn reported(&self) -> Outcome {
        let counts = self.outcome.counts;
        let hidden = self.report.hidden.outcome.counts;
        Outcome {
            counts: less(counts, hidden),
            is_unread: self.outcome.is_unread,
        }
    }

    /// The last line of standard error: the counts, and how many findings are not reported.
    fn summary(&self) -> Result<String, AllocError> {
        let hidden = self.report.hidden;
        let mut line = format!(in self.rt.alloc(); "config_check: {}", self.reported().counts)?;
        for (count, what) in [
            (self.fixed as u64, " fixed"),
            (hidden.ignored, " ignored"),
            (hidden.known, " in the baseline"),
        ] {
            if count > 0 {
                line.push_str(&format!(in self.rt.alloc(); ", {count}{what}")?)?;
            }
        }
        Ok(line)
    }

    /// Writes what precedes the findings.
    fn begin(&self) -> Result<(), Failure<'static>> {
        if self.is_sarif() {
            let text = sarif::beginning(self.rt.alloc())?;
            written(self.rt.stdout().write_all(&text))?;
        }
        Ok(())
    }

    /// Whether the findings are a SARIF document.
    fn is_sarif(&self) -> bool {
        matches!(self.request.style.format, Format::Sarif)
            && matches!(self.request.output, Output::Findings | Output::Fixed)
    }

    /// Writes what follows the findings.
    fn end(&mut self) -> Result<(), Failure<'static>> {
        let alloc = self.rt.alloc();
        if self.is_sarif() {
            written(self.rt.stdout().write_all(sarif::END.as_bytes()))?;
        }
        if matches!(self.request.output, Output::Statistics) {
            let text = self.report.statistics(alloc)?;
            written(self.rt.stdout().write_all(&text))?;
        }
        if self.request.is_quiet {
            return Ok(());
        }
        let line = self.summary()?;
        written(eprintln!(self.rt; "{line}"))
    }

    /// Checks all files, and returns the exit status.
    fn all(&mut self) -> Result<u8, Failure<'static>> {
        let files = self.first_files()?;
        if files.is_empty() {
            return Err(Failure::Whole("Git reads no file here: name one"));
        }
        let has_stdin = files.contains(&STDIN);
        if has_stdin && matches!(self.request.output, Output::Fixed) {
            return Err(Failure::Whole(UNCHANGEABLE));
        }
        if has_stdin && self.rt.stdin().is_terminal() {
            return Err(Failure::Whole(TERMINAL));
        }
        self.begin()?;
        for file in &files {
            self.file(file)?;
            // files that are named may be of several machines
            if !self.request.files.is_empty() {
                self.report_aliases()?;
            }
        }
        self.report_aliases()?;
        self.report_missing()?;
        self.end()?;
        let status = self.reported().status(self.request.fails_on);
        Ok(if status == 1 && self.request.passes {
            0
        } else {
            status
        })
    }
}

/// The options of a check, with the users of this system or, with `--root`, of the one in that folder.
fn options_of<'t>(disk: &Disk<'t>, request: &Request<'_, '_>) -> Result<Options<'t>, AllocError> {
    let found = Users::new(disk, request.root.unwrap_or("").as_bytes())?;
    let has_home = found.home.is_some();
    let users = match found.passwd {
        Some(passwd) => Some(paths::KnownUsers { has_home, passwd }),
        None => None,
    };
    Ok(Options {
        git: request.git,
        canonical: request.canonical,
        users,
    })
}

/// Checks the files by these rows, and keeps their texts in `texts`. Returns the exit status.
pub(crate) fn check<'m, 't>(
    rt: &'t HostRuntime,
    texts: &'t Bump,
    all: Rows<'m, '_>,
    request: Request<'_, 'm>,
) -> Result<u8, Failure<'m>> {
    let alloc = rt.alloc();
    let Rows { rows, musts } = all;
    let baseline = match request.baseline {
        Some(file) => Some(fingerprints(rt, file)?),
        None => None,
    };
    let disk = Disk::new(rt, texts);
    let mut checking = Checking {
        rt,
        rows: if rows.is_empty() { None } else { Some(rows) },
        by_sections: FEW_FILES,
        musts,
        aliases: Aliases::new(alloc)?,
        request: &request,
        options: options_of(&disk, &request)?,
        report: Report::new(alloc, &request, baseline)?,
        home: kept_variable(&disk, "HOME")?,
        disk,
        seen: BTreeSet::new(alloc),
        open: Vec::new(alloc),
        outcome: Outcome::default(),
        fixed: 0,
    };
    checking.all()
}
