//! The built-in rows, for settings that Git documents and for those of other tools in its sections.
//! docs/CHECKING.md says how a row is written.

use crate::version::Version;
use gix_config_value::integer::Amount;

/// The newest version of Git whose settings the built-in rows know.
pub const NEWEST: Version = Version {
    major: Amount(2),
    minor: Amount(55),
};

/// The text of the built-in rows, which `read_rows` reads.
pub const SETTINGS: &str = "\
# Settings of Git 2.39.5 as git-config(1), with the pages that it names, documents them: those of Debian's
# package git-man 1:2.39.5-0+deb12u3. What the pages leave open is as Git 2.39.5 was seen to read it, by
# compare/settings.tsv: case, ranges, keys alone, and whether it goes on at a wrong value.
advice.addEmbeddedRepo              bool
advice.addEmptyPathspec             bool
advice.addIgnoredFile               bool
advice.ambiguousFetchRefspec        bool
advice.amWorkDir                    bool
advice.checkoutAmbiguousRemoteBranchName bool
advice.commitBeforeMerge            bool
advice.detachedHead                 bool
advice.fetchShowForcedUpdates       bool
advice.ignoredHook                  bool
advice.implicitIdentity             bool
advice.nestedTag                    bool
advice.pushAlreadyExists            bool
advice.pushFetchFirst               bool
advice.pushNeedsForce               bool
advice.pushNonFFCurrent             bool
advice.pushNonFFMatching            bool
advice.pushRefNeedsUpdate           bool
advice.pushUnqualifiedRefName       bool
advice.pushUpdateRejected           bool
advice.resetNoRefresh               bool
advice.resolveConflict              bool
advice.rmHints                      bool
advice.sequencerInUse               bool
advice.skippedCherryPicks           bool
advice.statusAheadBehind            bool
advice.statusHints                  bool
advice.statusUoption                bool
advice.submoduleAlternateErrorStrategyDie bool
advice.submodulesNotUpdated         bool
advice.suggestDetachingHead         bool
advice.updateSparsePath             bool
advice.waitingForEditor             bool
core.fileMode                       bool
core.hideDotFiles                   bool-or-word dotGitOnly
core.ignoreCase                     bool
core.precomposeUnicode              bool
core.protectHFS                     bool
core.protectNTFS                    bool
core.fsmonitorHookVersion           warn int 1 2
core.trustctime                     bool
core.splitIndex                     warn bool
core.untrackedCache                 needs-value warn bool-or-word-any-case keep
core.checkStat                      until=2.47 warn word-any-case default minimal
core.quotePath                      bool
core.eol                            alone warn word-any-case lf crlf native
core.safecrlf                       bool-or-word-any-case warn
core.autocrlf                       bool-or-word-any-case input
core.symlinks                       bool
core.ignoreStat                     bool
core.bare                           bool
core.worktree                       text
core.logAllRefUpdates               bool-or-word-any-case always
core.repositoryFormatVersion        int -2147483648 1
core.warnAmbiguousRefs              bool
core.compression                    int -1 9
core.looseCompression               int -1 9
core.packedGitWindowSize            int 0 9223372036854775807
core.packedGitLimit                 int 0 9223372036854775807
core.deltaBaseCacheLimit            int 0 9223372036854775807
core.bigFileThreshold               int 0 9223372036854775807
core.excludesFile                   path
core.attributesFile                 path
core.hooksPath                      path
core.filesRefLockTimeout            int
core.packedRefsTimeout              int
core.fsyncMethod                    warn word fsync writeout-only batch
core.fsyncObjectFiles               instead=core.fsync bool
core.preloadIndex                   bool
core.restrictinheritedhandles       until=2.55 bool-or-word auto
core.createObject                   word link rename
core.commitGraph                    bool
core.useReplaceRefs                 bool
core.multiPackIndex                 bool
core.sparseCheckout                 bool
core.sparseCheckoutCone             bool
core.fsmonitor                      alone path
core.checkRoundtripEncoding         text
core.preferSymlinkRefs              until=2.52 bool
core.gitProxy                       text
core.sshCommand                     text
core.alternateRefsCommand           alone text
core.alternateRefsPrefixes          text
core.sharedRepository               bool-or-word umask group all world everybody
core.askPass                        text
core.editor                         text
core.commentChar                    until=2.52 text
core.pager                          text
core.whitespace                     until=2.53 warn words trailing-space -trailing-space blank-at-eol \
    -blank-at-eol space-before-tab -space-before-tab indent-with-non-tab -indent-with-non-tab tab-in-indent \
    -tab-in-indent blank-at-eof -blank-at-eof cr-at-eol -cr-at-eol tabwidth=* fix
core.fsync                          warn words loose-object -loose-object pack -pack pack-metadata \
    -pack-metadata commit-graph -commit-graph index -index objects -objects reference -reference \
    derived-metadata -derived-metadata committed -committed added -added all -all none
core.unsetenvvars                   text
core.abbrev                         until=2.47 words-any-case auto no off false 4 5 6 7 8 9 10 11 12 13 14 \
    15 16 17 18 19 20 21 22 23 24 25 26 27 28 29 30 31 32 33 34 35 36 37 38 39 40 41 42 43 44 45 46 47 48 \
    49 50 51 52 53 54 55 56 57 58 59 60 61 62 63 64 04 05 06 07 01* 0x* +*
add.ignoreErrors                    bool
add.ignore-errors                   instead=add.ignoreErrors bool
add.interactive.useBuiltin          until=2.40 bool
am.keepcr                           bool
am.threeWay                         bool
apply.ignoreWhitespace              word change no none never false
apply.whitespace                    word nowarn warn fix strip error error-all
blame.blankBoundary                 bool
blame.coloring                      warn word repeatedLines highlightRecent none
blame.showEmail                     bool
blame.showRoot                      bool
blame.date                          word relative relative-local local iso iso-local iso8601 \
    iso8601-local iso-strict iso-strict-local iso8601-strict iso8601-strict-local rfc rfc-local rfc2822 \
    rfc2822-local short short-local default default-local human human-local raw raw-local unix unix-local \
    format:* format-local:* auto:*
blame.ignoreRevsFile                path
blame.markUnblamableLines           bool
blame.markIgnoredLines              bool
branch.autoSetupMerge               bool-or-word always inherit simple
branch.autoSetupRebase              word never local remote always
branch.*.rebase                     bool-or-word merges m interactive i
branch.sort                         sort-key refname objecttype objectsize objectname deltabase tree \
    parent numparent object type tag author authorname authoremail authordate committer committername \
    committeremail committerdate tagger taggername taggeremail taggerdate creator creatordate subject body \
    trailers contents raw upstream push symref flag HEAD color worktreepath ahead-behind is-base describe \
    signature rest if then else end
branch.*.remote                     text
branch.*.pushRemote                 text
branch.*.merge                      text
branch.*.mergeOptions               text
branch.*.description                text
bundle.version                      alone warn int
bundle.mode                         alone warn word all any
bundle.*.uri                        alone text
bundle.*.*                          alone text
checkout.workers                    int
checkout.thresholdForParallelism    int
checkout.defaultRemote              text
checkout.guess                      bool
clean.requireForce                  bool
color.advice                        bool-or-word-any-case always never auto
color.advice.hint                   color
color.blame.repeatedLines           warn color
color.branch                        bool-or-word-any-case always never auto
color.branch.current                color
color.branch.local                  color
color.branch.remote                 color
color.branch.upstream               color
color.branch.plain                  color
color.diff                          bool-or-word-any-case always never auto
color.diff.context                  color
color.diff.plain                    color
color.diff.meta                     color
color.diff.frag                     color
color.diff.func                     color
color.diff.old                      color
color.diff.new                      color
color.diff.commit                   color
color.diff.whitespace               color
color.diff.oldMoved                 color
color.diff.newMoved                 color
color.diff.oldMovedDimmed           color
color.diff.oldMovedAlternative      color
color.diff.oldMovedAlternativeDimmed color
color.diff.newMovedDimmed           color
color.diff.newMovedAlternative      color
color.diff.newMovedAlternativeDimmed color
color.diff.contextDimmed            color
color.diff.oldDimmed                color
color.diff.newDimmed                color
color.diff.contextBold              color
color.diff.oldBold                  color
color.diff.newBold                  color
color.decorate.branch               color
color.decorate.remoteBranch         color
color.decorate.tag                  color
color.decorate.stash                color
color.decorate.HEAD                 color
color.decorate.grafted              color
color.grep                          bool-or-word-any-case always never auto
color.grep.context                  color
color.grep.filename                 color
color.grep.function                 color
color.grep.lineNumber               color
color.grep.column                   color
color.grep.match                    color
color.grep.matchContext             color
color.grep.matchSelected            color
color.grep.selected                 color
color.grep.separator                color
color.interactive                   bool-or-word-any-case always never auto
color.interactive.prompt            color
color.interactive.header            color
color.interactive.help              color
color.interactive.error             color
color.pager                         bool
color.push                          bool-or-word-any-case always never auto
color.push.error                    color
color.remote                        needs-value bool-or-word-any-case always never auto
color.remote.hint                   warn color
color.remote.warning                warn color
color.remote.success                warn color
color.remote.error                  warn color
color.showBranch                    bool-or-word-any-case always never auto
color.status                        bool-or-word-any-case always never auto
color.status.header                 color
color.status.added                  color
color.status.updated                color
color.status.changed                color
color.status.untracked              color
color.status.branch                 color
color.status.nobranch               color
color.status.localBranch            color
color.status.remoteBranch           color
color.status.unmerged               color
color.transport                     needs-value bool-or-word-any-case always never auto
color.transport.rejected            color
color.ui                            bool-or-word-any-case always never auto
color.blame.highlightRecent         colors-by-age
commit.cleanup                      word strip whitespace verbatim scissors default
commit.gpgSign                      bool
commit.status                       bool
commit.template                     path
commit.verbose                      bool-or-int
commitGraph.generationVersion       int
commitGraph.maxNewFilters           int
commitGraph.readChangedPaths        until=2.46 bool
credential.useHttpPath              needs-value bool
credential.sanitizePrompt           needs-value bool
credential.*.useHttpPath            needs-value bool
credential.*.sanitizePrompt         needs-value bool
credential.helper                   text
credential.username                 text
credential.protectProtocol          needs-value bool
credential.*.helper                 text
credential.*.username               text
credential.*.protectProtocol        needs-value bool
credentialStore.lockTimeoutMS       int
diff.autoRefreshIndex               bool
diff.statGraphWidth                 int
diff.context                        int 0 2147483647
diff.interHunkContext               int 0 2147483647
diff.ignoreSubmodules               word none untracked dirty all
diff.relative                       bool
diff.orderFile                      path
diff.renameLimit                    int
diff.renames                        bool-or-word-any-case copies copy
diff.suppressBlankEmpty             bool
diff.submodule                      warn word short log diff
diff.*.binary                       bool-or-word-any-case auto
diff.*.cachetextconv                bool
diff.indentHeuristic                bool
diff.algorithm                      word-any-case default myers minimal patience histogram
diff.colorMoved                     bool-or-word default plain blocks zebra dimmed-zebra dimmed_zebra
diff.dirstat                        warn words changes lines files cumulative noncumulative 0* 1* 2* 3* \
    4* 5* 6* 7* 8* 9*
diff.external                       text
diff.mnemonicPrefix                 bool
diff.noprefix                       bool
diff.wordRegex                      text
diff.*.command                      text
diff.*.xfuncname                    text
diff.*.textconv                     text
diff.*.wordRegex                    text
diff.tool                           alone text
diff.guitool                        alone text
diff.wsErrorHighlight               words old new context default all none
diff.colorMovedWS                   words no ignore-space-change ignore-space-at-eol ignore-all-space \
    allow-indentation-change
extensions.objectFormat             word sha1 sha256
extensions.worktreeConfig           bool
fastimport.unpackLimit              int
feature.experimental                bool
feature.manyFiles                   bool
fetch.recurseSubmodules             bool-or-word on-demand
fetch.fsckObjects                   bool
fetch.fsck.skipList                 path
fetch.unpackLimit                   int
fetch.prune                         bool
fetch.pruneTags                     bool
fetch.output                        word-any-case full compact
fetch.negotiationAlgorithm          word-any-case consecutive skipping noop default
fetch.showForcedUpdates             bool
fetch.parallel                      int 0 2147483647
fetch.writeCommitGraph              bool
format.forceInBodyFrom              bool
format.numbered                     bool-or-word-any-case auto
format.coverFromDescription         alone word message default subject auto none
format.encodeEmailHeaders           bool
format.thread                       bool-or-word-any-case shallow deep
format.signOff                      bool
format.coverLetter                  bool-or-word-any-case auto
format.filenameMaxLength            int
format.useAutoBase                  bool-or-word-any-case whenAble
format.attach                       alone text
format.from                         alone text
format.headers                      text
format.to                           text
format.cc                           text
format.subjectPrefix                text
format.signature                    text
format.signatureFile                path
format.suffix                       text
format.pretty                       text
format.outputDirectory              text
format.notes                        alone text
filter.*.required                   bool
filter.*.clean                      text
filter.*.smudge                     text
filter.*.process                    text
fsck.skipList                       path
fsmonitor.allowRemote               bool
fsmonitor.socketDir                 alone text
gc.aggressiveDepth                  int
gc.aggressiveWindow                 int
gc.auto                             int
gc.autoPackLimit                    int
gc.autoDetach                       bool
gc.bigPackThreshold                 int 0 9223372036854775807
gc.writeCommitGraph                 bool
gc.packRefs                         bool-or-word notbare
gc.cruftPacks                       bool
gc.logExpiry                        date-any-case now never yesterday last noon midnight tea am pm one \
    two three four five six seven eight nine ten jan* feb* mar* apr* may* jun* jul* aug* sep* oct* nov* dec*
gc.pruneExpire                      date-any-case now never yesterday last noon midnight tea am pm one \
    two three four five six seven eight nine ten jan* feb* mar* apr* may* jun* jul* aug* sep* oct* nov* dec*
gc.worktreePruneExpire              date-any-case now never yesterday last noon midnight tea am pm one \
    two three four five six seven eight nine ten jan* feb* mar* apr* may* jun* jul* aug* sep* oct* nov* dec*
gc.reflogExpire                     date-any-case now never all false yesterday last noon midnight tea \
    am pm one two three four five six seven eight nine ten jan* feb* mar* apr* may* jun* jul* aug* sep* oct* \
    nov* dec*
gc.*.reflogExpire                   date-any-case now never all false yesterday last noon midnight tea \
    am pm one two three four five six seven eight nine ten jan* feb* mar* apr* may* jun* jul* aug* sep* oct* \
    nov* dec*
gc.reflogExpireUnreachable          date-any-case now never all false yesterday last noon midnight tea \
    am pm one two three four five six seven eight nine ten jan* feb* mar* apr* may* jun* jul* aug* sep* oct* \
    nov* dec*
gc.*.reflogExpireUnreachable        date-any-case now never all false yesterday last noon midnight tea \
    am pm one two three four five six seven eight nine ten jan* feb* mar* apr* may* jun* jul* aug* sep* oct* \
    nov* dec*
gc.rerereResolved                   warn date-any-case now never all false yesterday last noon midnight \
    tea am pm one two three four five six seven eight nine ten jan* feb* mar* apr* may* jun* jul* aug* sep* \
    oct* nov* dec*
gc.rerereUnresolved                 warn date-any-case now never all false yesterday last noon midnight \
    tea am pm one two three four five six seven eight nine ten jan* feb* mar* apr* may* jun* jul* aug* sep* \
    oct* nov* dec*
gitcvs.logFile                      text
gitcvs.ext.logFile                  text
gitcvs.pserver.logFile              text
gitcvs.usecrlfattr                  warn bool
gitcvs.allBinary                    warn bool-or-word guess
gitcvs.commitMsgAnnotation          alone text
gitcvs.enabled                      warn bool
gitcvs.dbName                       alone text
gitcvs.dbDriver                     alone text
gitcvs.dbUser                       alone text
gitcvs.dbPass                       alone text
gitcvs.dbTableNamePrefix            alone text
gitweb.blame                        warn bool
gitweb.grep                         warn bool
gitweb.highlight                    warn bool
gitweb.patches                      alone warn int
gitweb.pickaxe                      warn bool
gitweb.showSizes                    warn bool
gitweb.category                     alone text
gitweb.description                  alone text
gitweb.owner                        alone text
gitweb.url                          alone text
gitweb.avatar                       alone text
gitweb.remote_heads                 warn bool
gitweb.snapshot                     alone text
grep.lineNumber                     bool
grep.column                         bool
grep.patternType                    word basic extended fixed perl default
grep.extendedRegexp                 bool
grep.threads                        int 0 2147483647
grep.fullName                       bool
grep.fallbackToNoIndex              bool
gpg.format                          word openpgp x509 ssh
gpg.minTrustLevel                   word-any-case undefined never marginal fully ultimate
gpg.program                         until=2.51 text
gpg.ssh.defaultKeyCommand           text
gpg.ssh.allowedSignersFile          path
gpg.ssh.revocationFile              path
gui.commitMsgWidth                  alone warn int
gui.diffContext                     alone warn int
gui.displayUntracked                warn bool
gui.matchTrackingBranch             warn bool
gui.pruneDuringFetch                warn bool
gui.fastCopyBlame                   warn bool
gui.copyBlameThreshold              alone warn int
gui.blamehistoryctx                 alone warn int
gui.encoding                        alone text
gui.newBranchTemplate               alone text
gui.spellingDictionary              alone text
gui.trustmtime                      warn bool
help.format                         word man info web html
help.browser                        text
help.htmlPath                       text
help.autoCorrect                    until=2.49 int-or-word never immediate prompt
http.proxyAuthMethod                warn word anyauth basic digest negotiate ntlm
http.proxySSLCert                   text
http.proxySSLKey                    text
http.proxySSLCAInfo                 text
http.delegation                     warn word none policy always
http.cookieFile                     path
http.version                        warn word HTTP/2 HTTP/1.1
http.sslVersion                     warn word sslv2 sslv3 tlsv1 tlsv1.0 tlsv1.1 tlsv1.2 tlsv1.3
http.sslVerify                      bool
http.sslCAPath                      path
http.sslTry                         bool
http.maxRequests                    int
http.minSessions                    int
http.postBuffer                     int 0 9223372036854775807
http.lowSpeedTime                   int
http.noEPSV                         bool
http.followRedirects                bool-or-word initial
http.proxy                          text
http.proxySSLCertPasswordProtected  bool
http.emptyAuth                      bool-or-word auto
http.extraHeader                    text
http.saveCookies                    bool
http.curloptResolve                 text
http.sslCipherList                  text
http.sslCert                        path
http.sslKey                         path
http.sslCertPasswordProtected       bool
http.sslCAInfo                      path
http.sslBackend                     alone words-any-case openssl gnutls schannel secure-transport \
    mbedtls wolfssl nss bearssl rustls rustls-ffi gskit libressl boringssl
http.schannelUseSSLCAInfo           bool
http.pinnedPubkey                   path
http.lowSpeedLimit                  int
http.userAgent                      text
http.*.proxyAuthMethod              warn word anyauth basic digest negotiate ntlm
http.*.proxySSLCert                 text
http.*.proxySSLKey                  text
http.*.proxySSLCAInfo               text
http.*.delegation                   warn word none policy always
http.*.cookieFile                   path
http.*.version                      warn word HTTP/2 HTTP/1.1
http.*.sslVersion                   warn word sslv2 sslv3 tlsv1 tlsv1.0 tlsv1.1 tlsv1.2 tlsv1.3
http.*.sslVerify                    bool
http.*.sslCAPath                    path
http.*.sslTry                       bool
http.*.maxRequests                  int
http.*.minSessions                  int
http.*.postBuffer                   int 0 9223372036854775807
http.*.lowSpeedTime                 int
http.*.noEPSV                       bool
http.*.followRedirects              bool-or-word initial
http.*.proxy                        text
http.*.proxySSLCertPasswordProtected bool
http.*.emptyAuth                    bool-or-word auto
http.*.extraHeader                  text
http.*.saveCookies                  bool
http.*.curloptResolve               text
http.*.sslCipherList                text
http.*.sslCert                      path
http.*.sslKey                       path
http.*.sslCertPasswordProtected     bool
http.*.sslCAInfo                    path
http.*.sslBackend                   alone words-any-case openssl gnutls schannel secure-transport \
    mbedtls wolfssl nss bearssl rustls rustls-ffi gskit libressl boringssl
http.*.schannelUseSSLCAInfo         bool
http.*.pinnedPubkey                 path
http.*.lowSpeedLimit                int
http.*.userAgent                    text
imap.port                           int
imap.sslverify                      bool
imap.preformattedHTML               bool
imap.folder                         text
imap.tunnel                         text
imap.host                           text
imap.user                           text
imap.pass                           text
imap.authMethod                     text
include.path                        text
includeIf.*.path                    text
index.recordEndOfIndexEntries       bool
index.recordOffsetTable             bool
index.sparse                        bool
index.threads                       bool-or-int
index.version                       warn int 2 4
instaweb.local                      bool
instaweb.port                       alone warn int
instaweb.browser                    alone text
instaweb.httpd                      alone text
instaweb.modulePath                 alone text
interactive.singleKey               bool
interactive.diffFilter              text
log.abbrevCommit                    bool
log.decorate                        warn bool-or-word short full auto
log.diffMerges                      word off none on first-parent 1 separate m combined c dense-combined \
    cc remerge r
log.follow                          bool
log.showRoot                        bool
log.showSignature                   bool
log.mailmap                         bool
log.date                            word relative relative-local local iso iso-local iso8601 \
    iso8601-local iso-strict iso-strict-local iso8601-strict iso8601-strict-local rfc rfc-local rfc2822 \
    rfc2822-local short short-local default default-local human human-local raw raw-local unix unix-local \
    format:* format-local:* auto:*
log.initialDecorationSet            warn word all
log.excludeDecoration               text
log.graphColors                     warn words-any-case normal default black red green yellow blue \
    magenta cyan white bright* bold dim italic ul blink reverse strike reset no* -1 0* 1* 2* 3* 4* 5* 6* 7* \
    8* 9* \\#*
lsrefs.unborn                       word advertise allow ignore
mailinfo.scissors                   bool
maintenance.auto                    bool
maintenance.strategy                until=2.52 warn word-any-case none incremental
maintenance.*.enabled               bool
maintenance.*.schedule              warn word-any-case hourly daily weekly
maintenance.commit-graph.auto       int
maintenance.loose-objects.auto      int
maintenance.incremental-repack.auto int
merge.conflictStyle                 word merge diff3 zdiff3
merge.defaultToUpstream             bool
merge.ff                            warn bool-or-word only
merge.verifySignatures              bool
merge.branchdesc                    bool
merge.log                           bool-or-int
merge.renameLimit                   int
merge.directoryRenames              needs-value warn bool-or-word-any-case conflict
merge.stat                          until=2.51 bool
merge.autoStash                     bool
merge.verbosity                     int
merge.suppressDest                  text
merge.renames                       needs-value bool-or-word-any-case copies copy
merge.renormalize                   bool
merge.tool                          alone text
merge.guitool                       alone text
merge.*.name                        text
merge.*.driver                      text
merge.*.recursive                   text
mergetool.*.hideResolved            bool
mergetool.*.trustExitCode           bool
mergetool.meld.hasOutput            warn bool
mergetool.meld.useAutoMerge         warn bool-or-word auto
mergetool.hideResolved              bool
mergetool.keepBackup                bool
mergetool.keepTemporaries           bool
mergetool.writeToTemp               bool
mergetool.*.path                    alone text
mergetool.*.cmd                     alone text
mergetool.vimdiff.layout            alone text
mergetool.prompt                    bool
notes.mergeStrategy                 word manual ours theirs union cat_sort_uniq
notes.*.mergeStrategy               word manual ours theirs union cat_sort_uniq
notes.rewrite.*                     bool
notes.rewriteMode                   warn word-any-case overwrite concatenate cat_sort_uniq ignore
notes.displayRef                    text
notes.rewriteRef                    text
pack.window                         int
pack.depth                          int
pack.windowMemory                   int 0 9223372036854775807
pack.compression                    int -1 9
pack.allowPackReuse                 until=2.44 bool
pack.deltaCacheSize                 int
pack.deltaCacheLimit                int 0 1048575
pack.threads                        int 0 2147483647
pack.indexVersion                   int 0 2
pack.packSizeLimit                  int 0 9223372036854775807
pack.useBitmaps                     bool
pack.useSparse                      bool
pack.writeBitmaps                   instead=repack.writeBitmaps bool
pack.writeBitmapHashCache           bool
pack.writeBitmapLookupTable         bool
pack.writeReverseIndex              bool
pack.island                         text
pack.islandCore                     text
pack.preferBitmapTips               text
protocol.allow                      word-any-case always never user
protocol.*.allow                    word-any-case always never user
protocol.version                    word 0 1 2
pull.ff                             bool-or-word only
pull.rebase                         bool-or-word merges m interactive i
pull.octopus                        text
pull.twohead                        text
push.autoSetupRemote                bool
push.default                        instead=upstream old=tracking word nothing current upstream tracking simple matching
push.followTags                     bool
push.gpgSign                        bool-or-word-any-case if-asked
push.recurseSubmodules              words-any-case check on-demand only false no off 0* +0* -0*
push.useForceIfIncludes             bool
push.negotiate                      bool
push.useBitmaps                     bool
push.pushOption                     text
rebase.backend                      word apply merge
rebase.stat                         bool
rebase.autoSquash                   bool
rebase.autoStash                    bool
rebase.updateRefs                   bool
rebase.missingCommitsCheck          warn word-any-case warn error ignore
rebase.abbreviateCommands           bool
rebase.rescheduleFailedExec         bool
rebase.forkPoint                    bool
rebase.instructionFormat            text
receive.advertiseAtomic             bool
receive.advertisePushOptions        bool
receive.autogc                      bool
receive.certNonceSlop               int 0 9223372036854775807
receive.fsckObjects                 bool
receive.fsck.skipList               path
receive.keepAlive                   int
receive.unpackLimit                 int
receive.maxInputSize                int -9223372036854775808 9223372036854775807
receive.denyDeletes                 bool
receive.denyDeleteCurrent           bool-or-word-any-case refuse warn ignore updateInstead
receive.denyCurrentBranch           bool-or-word-any-case refuse warn ignore updateInstead
receive.denyNonFastForwards         bool
receive.updateServerInfo            bool
receive.shallowUpdate               bool
receive.certNonceSeed               text
receive.hideRefs                    text
receive.procReceiveRefs             text
remote.*.proxyAuthMethod            warn word anyauth basic digest negotiate ntlm
remote.*.mirror                     bool
remote.*.skipDefaultUpdate          instead=remote.NAME.skipFetchAll bool
remote.*.skipFetchAll               bool
remote.*.tagOpt                     warn word --no-tags --tags
remote.*.prune                      bool
remote.*.pruneTags                  bool
remote.*.promisor                   bool
remote.pushDefault                  text
remote.*.url                        text
remote.*.pushurl                    text
remote.*.proxy                      text
remote.*.fetch                      fetch-refspec
remote.*.push                       push-refspec
remote.*.receivepack                text
remote.*.uploadpack                 text
remote.*.vcs                        text
remote.*.partialclonefilter         text
repack.useDeltaBaseOffset           bool
repack.packKeptObjects              bool
repack.useDeltaIslands              bool
repack.writeBitmaps                 bool
repack.updateServerInfo             bool
repack.cruftWindow                  until=2.50 int -9223372036854775808 9223372036854775807
repack.cruftWindowMemory            int 0 9223372036854775807
repack.cruftDepth                   until=2.50 int -9223372036854775808 9223372036854775807
repack.cruftThreads                 until=2.50 int -9223372036854775808 9223372036854775807
rerere.autoUpdate                   bool
rerere.enabled                      bool
revert.reference                    bool
safe.bareRepository                 word all explicit
safe.directory                      alone path
sendemail.multiEdit                 bool
sendemail.confirm                   word always never cc compose auto
sendemail.aliasFileType             alone warn word mutt mailrc pine elm gnus sendmail
sendemail.smtpBatchSize             alone warn int
sendemail.smtpReloginDelay          alone warn int
sendemail.*.multiEdit               bool
sendemail.*.confirm                 word always never cc compose auto
sendemail.*.aliasFileType           alone warn word mutt mailrc pine elm gnus sendmail
sendemail.*.smtpBatchSize           alone warn int
sendemail.*.smtpReloginDelay        alone warn int
sendemail.identity                  alone text
sendemail.smtpsslcertpath           alone text
sendemail.aliasesFile               alone text
sendemail.annotate                  bool
sendemail.bcc                       alone text
sendemail.cc                        alone text
sendemail.ccCmd                     alone text
sendemail.chainReplyTo              bool
sendemail.envelopeSender            alone text
sendemail.from                      alone text
sendemail.signedOffByCc             bool
sendemail.signedOffCc               instead=sendemail.signedOffByCc bool
sendemail.smtpPass                  alone text
sendemail.suppressCc                alone word all cccmd cc author self sob body bodycc misc-by
sendemail.suppressFrom              bool
sendemail.to                        alone text
sendemail.toCmd                     alone text
sendemail.smtpDomain                alone text
sendemail.smtpServer                alone text
sendemail.smtpServerPort            alone text
sendemail.smtpServerOption          alone text
sendemail.smtpUser                  alone text
sendemail.thread                    bool
sendemail.transferEncoding          alone word 7bit 8bit quoted-printable base64 auto
sendemail.validate                  bool
sendemail.xmailer                   bool
sendemail.forbidSendmailVariables   bool
sendemail.*.smtpsslcertpath         alone text
sendemail.*.aliasesFile             alone text
sendemail.*.annotate                bool
sendemail.*.bcc                     alone text
sendemail.*.cc                      alone text
sendemail.*.ccCmd                   alone text
sendemail.*.chainReplyTo            bool
sendemail.*.envelopeSender          alone text
sendemail.*.from                    alone text
sendemail.*.signedOffByCc           bool
sendemail.*.signedOffCc             instead=sendemail.NAME.signedOffByCc bool
sendemail.*.smtpPass                alone text
sendemail.*.suppressCc              alone word all cccmd cc author self sob body bodycc misc-by
sendemail.*.suppressFrom            bool
sendemail.*.to                      alone text
sendemail.*.toCmd                   alone text
sendemail.*.smtpDomain              alone text
sendemail.*.smtpServer              alone text
sendemail.*.smtpServerPort          alone text
sendemail.*.smtpServerOption        alone text
sendemail.*.smtpUser                alone text
sendemail.*.thread                  bool
sendemail.*.transferEncoding        alone word 7bit 8bit quoted-printable base64 auto
sendemail.*.validate                bool
sendemail.*.xmailer                 bool
sendemail.*.forbidSendmailVariables bool
sparse.expectFilesOutsideOfPatterns bool
splitIndex.maxPercentChange         warn int 0 100
splitIndex.sharedIndexExpire        date-any-case now never yesterday last noon midnight tea am pm one \
    two three four five six seven eight nine ten jan* feb* mar* apr* may* jun* jul* aug* sep* oct* nov* dec*
status.relativePaths                bool
status.short                        bool
status.branch                       bool
status.aheadBehind                  bool
status.displayCommentPrefix         bool
status.renameLimit                  int
status.renames                      bool-or-word-any-case copies copy
status.showStash                    bool
status.showUntrackedFiles           until=2.45 word no normal all
status.submoduleSummary             bool-or-int
stash.showIncludeUntracked          bool
stash.showPatch                     bool
stash.showStat                      bool
submodule.*.ignore                  word all dirty untracked none
submodule.*.active                  bool
submodule.recurse                   bool
submodule.propagateBranches         bool
submodule.fetchJobs                 int 0 2147483647
submodule.alternateLocation         word no superproject
submodule.alternateErrorStrategy    word ignore info die
submodule.*.url                     text
submodule.*.update                  word checkout rebase merge none !*
submodule.*.branch                  text
submodule.*.fetchRecurseSubmodules  needs-value bool-or-word on-demand
submodule.active                    text
tag.forceSignAnnotated              bool
tag.gpgSign                         bool
tag.sort                            sort-key refname objecttype objectsize objectname deltabase tree \
    parent numparent object type tag author authorname authoremail authordate committer committername \
    committeremail committerdate tagger taggername taggeremail taggerdate creator creatordate subject body \
    trailers contents raw upstream push symref flag HEAD color worktreepath ahead-behind is-base describe \
    signature rest if then else end
trace2.normalBrief                  needs-value warn bool
trace2.perfBrief                    needs-value warn bool
trace2.eventBrief                   needs-value warn bool
trace2.eventNesting                 warn int
trace2.destinationDebug             needs-value warn bool
trace2.maxFiles                     warn int
trace2.normalTarget                 text
trace2.perfTarget                   text
trace2.eventTarget                  text
trace2.configParams                 text
trace2.envVars                      text
transfer.credentialsInUrl           word allow warn die
transfer.fsckObjects                bool
transfer.unpackLimit                int
transfer.advertiseSID               bool
transfer.hideRefs                   text
uploadarchive.allowUnreachable      bool
uploadpack.allowTipSHA1InWant       bool
uploadpack.allowReachableSHA1InWant bool
uploadpack.allowAnySHA1InWant       bool
uploadpack.keepAlive                int
uploadpack.hideRefs                 text
uploadpack.allowFilter              bool
uploadpack.allowRefInWant           bool
uploadpack.packObjectsHook          text
uploadpackfilter.allow              bool
uploadpackfilter.*.allow            bool
uploadpackfilter.tree.maxDepth      int 0 9223372036854775807
user.useConfigOnly                  bool
user.name                           text
user.email                          text
user.signingKey                     text
worktree.guessRemote                bool
alias.*                             command
author.name                         text
author.email                        text
committer.name                      text
committer.email                     text
browser.*.cmd                       alone text
browser.*.path                      alone text
clone.defaultRemoteName             text
clone.rejectShallow                 bool
clone.filterSubmodules              bool
column.ui                           words always never auto column row plain dense nodense
column.branch                       words always never auto column row plain dense nodense
column.clean                        words always never auto column row plain dense nodense
column.status                       words always never auto column row plain dense nodense
column.tag                          words always never auto column row plain dense nodense
completion.commands                 alone text
credentialCache.ignoreSIGHUP        bool
difftool.*.cmd                      alone text
difftool.*.path                     alone text
difftool.trustExitCode              bool
difftool.prompt                     bool
guitool.*.cmd                       alone text
guitool.*.needsFile                 warn bool
guitool.*.noConsole                 warn bool
guitool.*.noRescan                  warn bool
guitool.*.confirm                   warn bool
guitool.*.argPrompt                 alone text
guitool.*.revPrompt                 alone text
guitool.*.revUnmerged               warn bool
guitool.*.title                     alone text
guitool.*.prompt                    alone text
i18n.commitEncoding                 text
i18n.logOutputEncoding              text
init.templateDir                    alone path
init.defaultBranch                  branch
mailmap.file                        path
mailmap.blob                        text
man.viewer                          text
man.*.cmd                           text
man.*.path                          text
pager.*                             alone text
pretty.*                            text
sequence.editor                     text
showBranch.default                  text
ssh.variant                         warn word auto ssh plink putty tortoiseplink simple
tar.umask                           int-or-word user
url.*.insteadOf                     text
url.*.pushInsteadOf                 text
versionsort.prereleaseSuffix        instead=versionsort.suffix text
versionsort.suffix                  text
web.browser                         text
# Keys that git-config(1) leaves to other pages, or reads without a word of them
core.notesRef                       word refs/notes/*
gpg.openpgp.program                 until=2.51 text
gpg.x509.program                    until=2.51 text
gpg.ssh.program                     until=2.51 text
http.schannelCheckRevoke            bool-or-word best-effort
http.*.schannelCheckRevoke          bool-or-word best-effort
sendemail.smtpEncryption            alone warn word ssl tls none plain no off false
sendemail.*.smtpEncryption          alone warn word ssl tls none plain no off false
advice.pushNonFastForward           bool
advice.resetQuiet                   bool
advice.setUpstreamFailure           bool
advice.statusAheadBehindWarning     bool
color.branch.worktree               color
diff.*.funcname                     text
extensions.preciousObjects          bool
extensions.partialClone             text
extensions.noop                     text
extensions.noop-v1                  text
gui.GCWarning                       warn bool
gitcvs.authdb                       alone text
gitcvs.ext.*                        alone text
gitcvs.pserver.*                    alone text
sendemail.smtpAuth                  alone text
sendemail.sendmailCmd               alone text
sendemail.composeEncoding           alone text
sendemail.assume8bitEncoding        alone text
submodule.*.path                    text
submodule.*.shallow                 bool
alias.*.command                     command
alias.*.*                           text
tar.*.command                       text
tar.*.remote                        bool
trailer.separators                  text
trailer.where                       alone warn word-any-case after before end start
trailer.ifexists                    alone warn word-any-case addIfDifferent addIfDifferentNeighbor add \
    replace doNothing
trailer.ifmissing                   warn word-any-case doNothing add
trailer.*.key                       text
trailer.*.where                     alone warn word-any-case after before end start
trailer.*.ifexists                  alone warn word-any-case addIfDifferent addIfDifferentNeighbor add \
    replace doNothing
trailer.*.ifmissing                 warn word-any-case doNothing add
trailer.*.command                   instead=trailer.NAME.cmd text
trailer.*.cmd                       text
advice.graftFileDeprecated          bool
advice.objectNameWarning            bool
am.messageId                        bool
color.advice.reset                  color
color.branch.reset                  color
color.interactive.plain             color
color.interactive.reset             color
color.push.reset                    color
color.transport.reset               color
core.disambiguate                   word-any-case none commit committish tree treeish blob
diff.color                          bool-or-word-any-case always never auto
diff.color.*                        color
diff.suppress-blank-empty           bool
fetch.uriProtocols                  alone text
fetch.hideRefs                      text
gc.launchctlPlistLockTimeoutMS      alone text
gitweb.extraBranchRefs              alone text
http.getanyfile                     bool
http.receivepack                    bool
http.uploadpack                     bool
http.uploadarchive                  bool
http.maxRequestBuffer               int 0 9223372036854775807
mailinfo.quotedCR                   word nowarn warn strip
instaweb.gitwebdir                  alone text
maintenance.repo                    alone text
maintenance.*.lastRun               alone text
merge.default                       text
merge.summary                       bool-or-int
merge.diffstat                      until=2.51 bool
sendemail.ccCover                   bool
sendemail.toCover                   bool
sendemail.*.ccCover                 bool
sendemail.*.toCover                 bool
sendemail.*.smtpAuth                alone text
sendemail.*.sendmailCmd             alone text
sendemail.*.composeEncoding         alone text
sendemail.*.assume8bitEncoding      alone text
status.color                        bool-or-word-any-case always never auto
status.color.*                      color
submodule.stickyRecursiveClone      bool
uploadpack.allowSidebandAll         bool
uploadpack.blobPackfileURI          text
# The messages that git-fsck(1) of 2.55.0 lists
fsck.badDate                        word error warn ignore
fsck.badDateOverflow                word error warn ignore
fsck.badEmail                       word error warn ignore
fsck.badFilemode                    word error warn ignore
fsck.badGpgsig                      word error warn ignore
fsck.badHeadTarget                  word error warn ignore
fsck.badHeaderContinuation          word error warn ignore
fsck.badName                        word error warn ignore
fsck.badPackedRefEntry              word error warn ignore
fsck.badPackedRefHeader             word error warn ignore
fsck.badRefContent                  word error warn ignore
fsck.badRefFiletype                 word error warn ignore
fsck.badRefName                     word error warn ignore
fsck.badRefOid                      word error warn ignore
fsck.badReferentName                word error warn ignore
fsck.badReftableTableName           word error warn ignore
fsck.badTagName                     word error warn ignore
fsck.badTimezone                    word error warn ignore
fsck.badTree                        word error warn ignore
fsck.badType                        word error warn ignore
fsck.duplicateEntries               word error warn ignore
fsck.emptyName                      word error warn ignore
fsck.emptyPackedRefsFile            word error warn ignore
fsck.extraHeaderEntry               word error warn ignore
fsck.fullPathname                   word error warn ignore
fsck.gitattributesBlob              word error warn ignore
fsck.gitattributesLarge             word error warn ignore
fsck.gitattributesLineLength        word error warn ignore
fsck.gitattributesMissing           word error warn ignore
fsck.gitattributesSymlink           word error warn ignore
fsck.gitignoreSymlink               word error warn ignore
fsck.gitmodulesBlob                 word error warn ignore
fsck.gitmodulesLarge                word error warn ignore
fsck.gitmodulesMissing              word error warn ignore
fsck.gitmodulesName                 word error warn ignore
fsck.gitmodulesParse                word error warn ignore
fsck.gitmodulesPath                 word error warn ignore
fsck.gitmodulesSymlink              word error warn ignore
fsck.gitmodulesUpdate               word error warn ignore
fsck.gitmodulesUrl                  word error warn ignore
fsck.hasDot                         word error warn ignore
fsck.hasDotdot                      word error warn ignore
fsck.hasDotgit                      word error warn ignore
fsck.largePathname                  word error warn ignore
fsck.mailmapSymlink                 word error warn ignore
fsck.missingAuthor                  word error warn ignore
fsck.missingCommitter               word error warn ignore
fsck.missingEmail                   word error warn ignore
fsck.missingNameBeforeEmail         word error warn ignore
fsck.missingObject                  word error warn ignore
fsck.missingSpaceBeforeDate         word error warn ignore
fsck.missingSpaceBeforeEmail        word error warn ignore
fsck.missingTag                     word error warn ignore
fsck.missingTagEntry                word error warn ignore
fsck.missingTaggerEntry             word error warn ignore
fsck.missingTree                    word error warn ignore
fsck.missingType                    word error warn ignore
fsck.missingTypeEntry               word error warn ignore
fsck.multipleAuthors                word error warn ignore
fsck.nulInCommit                    word error warn ignore
fsck.nulInHeader                    word error warn ignore
fsck.packedRefEntryNotTerminated    word error warn ignore
fsck.packedRefUnsorted              word error warn ignore
fsck.refMissingNewline              word error warn ignore
fsck.symlinkRef                     word error warn ignore
fsck.symrefTargetIsNotARef          word error warn ignore
fsck.trailingRefContent             word error warn ignore
fsck.treeNotSorted                  word error warn ignore
fsck.unknownType                    word error warn ignore
fsck.unterminatedHeader             word error warn ignore
fsck.zeroPaddedDate                 word error warn ignore
fsck.zeroPaddedFilemode             word error warn ignore
fetch.fsck.badDate                  word error warn ignore
fetch.fsck.badDateOverflow          word error warn ignore
fetch.fsck.badEmail                 word error warn ignore
fetch.fsck.badFilemode              word error warn ignore
fetch.fsck.badGpgsig                word error warn ignore
fetch.fsck.badHeadTarget            word error warn ignore
fetch.fsck.badHeaderContinuation    word error warn ignore
fetch.fsck.badName                  word error warn ignore
fetch.fsck.badPackedRefEntry        word error warn ignore
fetch.fsck.badPackedRefHeader       word error warn ignore
fetch.fsck.badRefContent            word error warn ignore
fetch.fsck.badRefFiletype           word error warn ignore
fetch.fsck.badRefName               word error warn ignore
fetch.fsck.badRefOid                word error warn ignore
fetch.fsck.badReferentName          word error warn ignore
fetch.fsck.badReftableTableName     word error warn ignore
fetch.fsck.badTagName               word error warn ignore
fetch.fsck.badTimezone              word error warn ignore
fetch.fsck.badTree                  word error warn ignore
fetch.fsck.badType                  word error warn ignore
fetch.fsck.duplicateEntries         word error warn ignore
fetch.fsck.emptyName                word error warn ignore
fetch.fsck.emptyPackedRefsFile      word error warn ignore
fetch.fsck.extraHeaderEntry         word error warn ignore
fetch.fsck.fullPathname             word error warn ignore
fetch.fsck.gitattributesBlob        word error warn ignore
fetch.fsck.gitattributesLarge       word error warn ignore
fetch.fsck.gitattributesLineLength  word error warn ignore
fetch.fsck.gitattributesMissing     word error warn ignore
fetch.fsck.gitattributesSymlink     word error warn ignore
fetch.fsck.gitignoreSymlink         word error warn ignore
fetch.fsck.gitmodulesBlob           word error warn ignore
fetch.fsck.gitmodulesLarge          word error warn ignore
fetch.fsck.gitmodulesMissing        word error warn ignore
fetch.fsck.gitmodulesName           word error warn ignore
fetch.fsck.gitmodulesParse          word error warn ignore
fetch.fsck.gitmodulesPath           word error warn ignore
fetch.fsck.gitmodulesSymlink        word error warn ignore
fetch.fsck.gitmodulesUpdate         word error warn ignore
fetch.fsck.gitmodulesUrl            word error warn ignore
fetch.fsck.hasDot                   word error warn ignore
fetch.fsck.hasDotdot                word error warn ignore
fetch.fsck.hasDotgit                word error warn ignore
fetch.fsck.largePathname            word error warn ignore
fetch.fsck.mailmapSymlink           word error warn ignore
fetch.fsck.missingAuthor            word error warn ignore
fetch.fsck.missingCommitter         word error warn ignore
fetch.fsck.missingEmail             word error warn ignore
fetch.fsck.missingNameBeforeEmail   word error warn ignore
fetch.fsck.missingObject            word error warn ignore
fetch.fsck.missingSpaceBeforeDate   word error warn ignore
fetch.fsck.missingSpaceBeforeEmail  word error warn ignore
fetch.fsck.missingTag               word error warn ignore
fetch.fsck.missingTagEntry          word error warn ignore
fetch.fsck.missingTaggerEntry       word error warn ignore
fetch.fsck.missingTree              word error warn ignore
fetch.fsck.missingType              word error warn ignore
fetch.fsck.missingTypeEntry         word error warn ignore
fetch.fsck.multipleAuthors          word error warn ignore
fetch.fsck.nulInCommit              word error warn ignore
fetch.fsck.nulInHeader              word error warn ignore
fetch.fsck.packedRefEntryNotTerminated word error warn ignore
fetch.fsck.packedRefUnsorted        word error warn ignore
fetch.fsck.refMissingNewline        word error warn ignore
fetch.fsck.symlinkRef               word error warn ignore
fetch.fsck.symrefTargetIsNotARef    word error warn ignore
fetch.fsck.trailingRefContent       word error warn ignore
fetch.fsck.treeNotSorted            word error warn ignore
fetch.fsck.unknownType              word error warn ignore
fetch.fsck.unterminatedHeader       word error warn ignore
fetch.fsck.zeroPaddedDate           word error warn ignore
fetch.fsck.zeroPaddedFilemode       word error warn ignore
receive.fsck.badDate                word error warn ignore
receive.fsck.badDateOverflow        word error warn ignore
receive.fsck.badEmail               word error warn ignore
receive.fsck.badFilemode            word error warn ignore
receive.fsck.badGpgsig              word error warn ignore
receive.fsck.badHeadTarget          word error warn ignore
receive.fsck.badHeaderContinuation  word error warn ignore
receive.fsck.badName                word error warn ignore
receive.fsck.badPackedRefEntry      word error warn ignore
receive.fsck.badPackedRefHeader     word error warn ignore
receive.fsck.badRefContent          word error warn ignore
receive.fsck.badRefFiletype         word error warn ignore
receive.fsck.badRefName             word error warn ignore
receive.fsck.badRefOid              word error warn ignore
receive.fsck.badReferentName        word error warn ignore
receive.fsck.badReftableTableName   word error warn ignore
receive.fsck.badTagName             word error warn ignore
receive.fsck.badTimezone            word error warn ignore
receive.fsck.badTree                word error warn ignore
receive.fsck.badType                word error warn ignore
receive.fsck.duplicateEntries       word error warn ignore
receive.fsck.emptyName              word error warn ignore
receive.fsck.emptyPackedRefsFile    word error warn ignore
receive.fsck.extraHeaderEntry       word error warn ignore
receive.fsck.fullPathname           word error warn ignore
receive.fsck.gitattributesBlob      word error warn ignore
receive.fsck.gitattributesLarge     word error warn ignore
receive.fsck.gitattributesLineLength word error warn ignore
receive.fsck.gitattributesMissing   word error warn ignore
receive.fsck.gitattributesSymlink   word error warn ignore
receive.fsck.gitignoreSymlink       word error warn ignore
receive.fsck.gitmodulesBlob         word error warn ignore
receive.fsck.gitmodulesLarge        word error warn ignore
receive.fsck.gitmodulesMissing      word error warn ignore
receive.fsck.gitmodulesName         word error warn ignore
receive.fsck.gitmodulesParse        word error warn ignore
receive.fsck.gitmodulesPath         word error warn ignore
receive.fsck.gitmodulesSymlink      word error warn ignore
receive.fsck.gitmodulesUpdate       word error warn ignore
receive.fsck.gitmodulesUrl          word error warn ignore
receive.fsck.hasDot                 word error warn ignore
receive.fsck.hasDotdot              word error warn ignore
receive.fsck.hasDotgit              word error warn ignore
receive.fsck.largePathname          word error warn ignore
receive.fsck.mailmapSymlink         word error warn ignore
receive.fsck.missingAuthor          word error warn ignore
receive.fsck.missingCommitter       word error warn ignore
receive.fsck.missingEmail           word error warn ignore
receive.fsck.missingNameBeforeEmail word error warn ignore
receive.fsck.missingObject          word error warn ignore
receive.fsck.missingSpaceBeforeDate word error warn ignore
receive.fsck.missingSpaceBeforeEmail word error warn ignore
receive.fsck.missingTag             word error warn ignore
receive.fsck.missingTagEntry        word error warn ignore
receive.fsck.missingTaggerEntry     word error warn ignore
receive.fsck.missingTree            word error warn ignore
receive.fsck.missingType            word error warn ignore
receive.fsck.missingTypeEntry       word error warn ignore
receive.fsck.multipleAuthors        word error warn ignore
receive.fsck.nulInCommit            word error warn ignore
receive.fsck.nulInHeader            word error warn ignore
receive.fsck.packedRefEntryNotTerminated word error warn ignore
receive.fsck.packedRefUnsorted      word error warn ignore
receive.fsck.refMissingNewline      word error warn ignore
receive.fsck.symlinkRef             word error warn ignore
receive.fsck.symrefTargetIsNotARef  word error warn ignore
receive.fsck.trailingRefContent     word error warn ignore
receive.fsck.treeNotSorted          word error warn ignore
receive.fsck.unknownType            word error warn ignore
receive.fsck.unterminatedHeader     word error warn ignore
receive.fsck.zeroPaddedDate         word error warn ignore
receive.fsck.zeroPaddedFilemode     word error warn ignore
# Settings that Gits after 2.39 read, or read in another way: the version of each is that of its release notes
bundle.heuristic                    since=2.40 alone text
fetch.bundleCreationToken           since=2.40 text
fetch.bundleURI                     since=2.40 text
index.skipHash                      since=2.40 bool
transfer.bundleURI                  since=2.40 bool
uploadpack.advertiseBundleURIs      since=2.40 bool
diff.*.algorithm                    since=2.40 warn word-any-case default myers minimal patience histogram
difftool.guiDefault                 since=2.41 bool-or-word-any-case auto
mergetool.guiDefault                since=2.41 bool-or-word-any-case auto
pack.readReverseIndex               since=2.41 bool
rebase.rebaseMerges                 since=2.41 bool-or-word rebase-cousins no-rebase-cousins
advice.diverging                    since=2.41 bool
format.noprefix                     since=2.41 bool
http.sslCertType                    since=2.41 text
http.sslKeyType                     since=2.41 text
http.*.sslCertType                  since=2.41 text
http.*.sslKeyType                   since=2.41 text
sendemail.headerCmd                 since=2.41 alone text
gc.recentObjectsHook                since=2.42 text
advice.worktreeAddOrphan            since=2.42 bool
pack.useBitmapBoundaryTraversal     since=2.42 bool
attr.tree                           since=2.43 text
core.maxTreeDepth                   since=2.43 int 1 2147483647
diff.statNameWidth                  since=2.43 int
gc.maxCruftSize                     since=2.43 int 0 9223372036854775807
gc.repackFilter                     since=2.43 text
gc.repackFilterTo                   since=2.43 text
advice.submoduleMergeConflict       since=2.43 bool
rebase.maxLabelLength               since=2.43 int
fetch.all                           since=2.44 bool
advice.forceDeleteBranch            since=2.44 bool
advice.rebaseTodoError              since=2.44 bool
format.mboxrd                       since=2.44 bool
pack.allowPackReuse                 since=2.44 bool-or-word-any-case single multi
core.commentString                  since=2.45 until=2.52 text
diff.dstPrefix                      since=2.45 text
diff.srcPrefix                      since=2.45 text
extensions.compatObjectFormat       since=2.45 word sha1 sha256
extensions.refStorage               since=2.45 word files reftable files:* reftable:*
advice.mergeConflict                since=2.45 bool
advice.refSyntax                    since=2.45 bool
transfer.advertiseObjectInfo        since=2.45 bool
status.showUntrackedFiles           since=2.45 bool-or-word no normal all
http.proactiveAuth                  since=2.46 warn word auto basic none
http.*.proactiveAuth                since=2.46 warn word auto basic none
advice.defaultBranchName            since=2.46 bool
advice.sparseIndexExpanded          since=2.46 bool
bitmapPseudoMerge.*.pattern         since=2.46 text
bitmapPseudoMerge.*.decay           since=2.46 text
bitmapPseudoMerge.*.sampleRate      since=2.46 text
bitmapPseudoMerge.*.threshold       since=2.46 date-any-case now never yesterday last noon midnight tea am \
    pm one two three four five six seven eight nine ten jan* feb* mar* apr* may* jun* jul* aug* sep* oct* \
    nov* dec*
bitmapPseudoMerge.*.maxMerges       since=2.46 int 0 2147483647
bitmapPseudoMerge.*.stableThreshold since=2.46 date-any-case now never yesterday last noon midnight tea am \
    pm one two three four five six seven eight nine ten jan* feb* mar* apr* may* jun* jul* aug* sep* oct* \
    nov* dec*
bitmapPseudoMerge.*.stableSize      since=2.46 int 1 2147483647
commitGraph.changedPathsVersion     since=2.46 int -1 2
commitGraph.readChangedPaths        since=2.46 instead=commitGraph.changedPathsVersion bool
diff.trustExitCode                  since=2.46 bool
diff.*.trustExitCode                since=2.46 bool
mergetool.gvimdiff.layout           since=2.46 alone text
mergetool.nvimdiff.layout           since=2.46 alone text
promisor.quiet                      since=2.46 bool
reftable.blockSize                  since=2.46 int 0 16777215
reftable.restartInterval            since=2.46 int 0 65535
reftable.indexObjects               since=2.46 bool
reftable.geometricFactor            since=2.46 int 0 255
mergetool.*.layout                  since=2.46 alone text
init.defaultObjectFormat            since=2.47 warn word sha1 sha256
init.defaultRefFormat               since=2.47 warn word files reftable
maintenance.autoDetach              since=2.47 bool
remote.*.serverOption               since=2.47 text
sendemail.mailmap                   since=2.47 bool
sendemail.mailmap.file              since=2.47 text
sendemail.mailmap.blob              since=2.47 text
credential.interactive              since=2.47 needs-value warn bool-or-word never auto always
reftable.lockTimeout                since=2.47 int -1 9223372036854775807
core.checkStat                      since=2.47 word-any-case default minimal
core.abbrev                         since=2.47 needs-value bool-or-word-any-case auto
extensions.relativeWorktrees        since=2.48 bool
remote.*.followRemoteHEAD           since=2.48 warn word create never always warn warn-if-not-*
worktree.useRelativePaths           since=2.48 bool
advice.fetchRemoteHEADWarn          since=2.48 bool
pack.usePathWalk                    since=2.49 bool
promisor.advertise                  since=2.49 bool
promisor.acceptFromServer           since=2.49 warn word-any-case none knownUrl knownName all
help.autoCorrect                    since=2.49 bool-or-word never immediate prompt show
http.keepAliveCount                 since=2.50 int
http.keepAliveIdle                  since=2.50 int
http.keepAliveInterval              since=2.50 int
http.*.keepAliveCount               since=2.50 int
http.*.keepAliveIdle                since=2.50 int
http.*.keepAliveInterval            since=2.50 int
maintenance.reflog-expire.auto      since=2.50 int
maintenance.rerere-gc.auto          since=2.50 int
maintenance.worktree-prune.auto     since=2.50 int
sendemail.outlookIdFix              since=2.50 bool
maintenance.loose-objects.batchSize since=2.50 int
repack.cruftWindow                  since=2.50 int
repack.cruftDepth                   since=2.50 int
repack.cruftThreads                 since=2.50 int
repack.midxMustContainCruft         since=2.51 bool
sendemail.smtpSSLClientCert         since=2.51 alone text
sendemail.smtpSSLClientKey          since=2.51 alone text
pull.autoStash                      since=2.51 bool
merge.stat                          since=2.51 warn bool-or-word diffstat compact
merge.diffstat                      since=2.51 warn bool-or-word diffstat compact
gpg.openpgp.program                 since=2.51 path
gpg.x509.program                    since=2.51 path
gpg.ssh.program                     since=2.51 path
gpg.program                         since=2.51 path
commitGraph.changedPaths            since=2.52 bool
maintenance.geometric-repack.auto   since=2.52 int
maintenance.geometric-repack.splitFactor since=2.52 int
promisor.checkFields                since=2.52 warn words-any-case partialCloneFilter token
promisor.sendFields                 since=2.52 warn words-any-case partialCloneFilter token
sendemail.imapSentFolder            since=2.52 alone text
sendemail.useImapOnly               since=2.52 bool
stash.index                         since=2.52 bool
remote.*.token                      since=2.52 text
core.commentChar                    since=2.52 instead=# old=auto text
core.commentString                  since=2.52 instead=# old=auto text
core.preferSymlinkRefs              since=2.52 instead=false old=true bool
maintenance.strategy                since=2.52 word-any-case incremental gc geometric
promisor.storeFields                since=2.53 warn words-any-case partialCloneFilter token
replay.refAction                    since=2.53 word update print
core.whitespace                     since=2.53 warn words trailing-space -trailing-space blank-at-eol \
    -blank-at-eol space-before-tab -space-before-tab indent-with-non-tab -indent-with-non-tab tab-in-indent \
    -tab-in-indent blank-at-eof -blank-at-eof cr-at-eol -cr-at-eol incomplete-line -incomplete-line \
    tabwidth=* fix
extensions.submodulePathConfig      since=2.54 bool
status.compareBranches              since=2.54 warn words-any-case @{upstream} @{push}
submodule.*.gitdir                  since=2.54 text
core.lockfilePid                    since=2.54 bool
format.commitListFormat             since=2.54 text
hook.*.command                      since=2.54 text
hook.*.event                        since=2.54 text
hook.*.enabled                      since=2.54 needs-value warn bool
http.maxRetries                     since=2.54 int
http.maxRetryTime                   since=2.54 int
http.retryAfter                     since=2.54 int
http.*.maxRetries                   since=2.54 int
http.*.maxRetryTime                 since=2.54 int
http.*.retryAfter                   since=2.54 int
init.defaultSubmodulePathConfig     since=2.54 bool
hook.*.parallel                     since=2.55 needs-value warn bool
hook.*.jobs                         since=2.55 warn int -1 2147483647
hook.jobs                           since=2.55 alone warn int -1 2147483647
remote.*.negotiationInclude         since=2.55 text
remote.*.negotiationRestrict        since=2.55 text
repack.midxNewLayerThreshold        since=2.55 int 1 2147483647
repack.midxSplitFactor              since=2.55 int 2 2147483647
sideband.allowControlCharacters     since=2.55 alone warn words color cursor erase true false yes no on off
sideband.*.allowControlCharacters   since=2.55 alone warn words color cursor erase true false yes no on off
# Settings of other tools in these sections, and of Gits before 2.39
i18n.filesEncoding                  text
credential.validate                 alone text
credential.*.validate               alone text
user.signature                      text
core.fscache                        bool
core.fsyncRefFiles                  alone text
core.longpaths                      bool
diff.compactionHeuristic            alone text
gc.prunePackExpire                  alone text
http.allowNTLMAuth                  alone text
http.cookieFileCacheLimit           alone text
http.maxRedirects                   alone text
http.sslAutoClientCert              alone text
http.*.allowNTLMAuth                alone text
http.*.sslAutoClientCert            alone text
pack.buildBitmaps                   alone text
pack.cutDeltaChains                 alone text
pack.deltaCompression               alone text
pack.reuseDeltas                    alone text
pack.reuseObjects                   alone text
pack.singlePack                     alone text
rebase.useBuiltin                   alone text
remote.lfsDefault                   alone text
remote.lfsPushDefault               alone text
sendemail.smtpSSL                   alone text
stash.useBuiltin                    alone text
status.deserializePath              alone text
status.deserializeWait              alone text
# remotes, last: its section is nearly that of remote
remotes.*                           text
";

/// The text of the rows for files `.gitmodules`, which precede the others there: Git reads them by rules of their own,
/// since anybody may have written them.
pub const MODULES: &str = "\
submodule.*.update                  word checkout rebase merge none
submodule.*.ignore                  needs-value warn word all dirty untracked none
submodule.*.path                    warn no-option
submodule.*.url                     warn no-option
";
