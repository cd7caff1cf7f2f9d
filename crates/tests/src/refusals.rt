//! Refusals of what no variable can have, and what `get` hands back.

use crate::support::equal;
use config_file::command::{CommandError, push_setting};
use config_file::settings::GetError;
use config_file::{Scope, Settings};
use gix_config_value::Integer;
use std::test::Fail;

#[test]
fn refuses_a_nul_and_an_empty_key(rt: HostRuntime) {
    for (key, value, is_nul) in [
        (b"a.b" as &[u8], Some(b"x\0" as &[u8]), true),
        (b"a.x\0y.b", None, true),
        (b"", Some(b"x"), false),
    ] {
        let mut text = Vec::new(rt.alloc());
        let given = push_setting(rt.alloc(), &mut text, key, value);
        assert!(rt; matches!(&given, Err(CommandError::Nul)) == is_nul);
        assert!(rt; matches!(&given, Err(CommandError::EmptyKey)) != is_nul);
        assert!(rt; text.is_empty());
    }
}

#[test]
fn refuses_the_value_of_a_key(rt: HostRuntime) -> Result<(), Fail> {
    let mut settings = Settings::new(rt.alloc());
    settings.add_file(
        rt.alloc(),
        Scope::Local,
        b"f",
        b"[core]\n\tbare\n\tempty =\n",
    )?;
    let Some(GetError::Refused(refused)) = settings.get::<Integer>("core.empty").err() else {
        return Err(Fail::new("an empty text is no integer"));
    };
    equal(&rt, refused.setting.entry.line, 3, "core.empty");
    let Some(GetError::NoValue(setting)) = settings.get::<Integer>("core.bare").err() else {
        return Err(Fail::new("a key alone is no integer"));
    };
    equal(&rt, setting.entry.line, 2, "core.bare");
    equal(&rt, setting.text(), b"true".as_slice(), "core.bare");
    Ok(())
}
