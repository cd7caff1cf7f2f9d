//! Short callers of `gix_config_value`. Each rests on public contracts alone. Read `repository` first, and
//! then the module nearest to your task.
//!
//! - `repository` reads the files of the system, the user and the repository, and looks up a setting; a
//!   refusal names its file and its line.
//! - `push_default` reads the values of `push.default`, as a kind of value of your own.
//! - `paths` interpolates paths, without users and with those of a passwd text.
//! - `headline` states for each kind which texts are read, with which value, and its one canonical text.
//! - `setting_headline` states which value a setting has in several files and in those that they include.
//! - `six_settings` is a tool: it writes six of the settings that Git reads in a folder.
//! - `theme` previews a color: the user's over the default of a theme, as far as the terminal shows it.
//! - `literals` has defaults that are written as texts, and whose values the prover computes.
#![tactic(auto)]

pub mod headline;
pub mod laws;
pub mod literals;
pub mod paths;
pub mod push_default;
pub mod repository;
pub mod setting_headline;
pub mod six_settings;
pub mod theme;
