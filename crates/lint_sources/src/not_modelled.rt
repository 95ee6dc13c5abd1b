//! The words that AOSP's init has and this machine doesn't model.

ghost use Rattle.std.specs.Prelude.{◌≡◌};
ghost use Rattle.std.specs.List.{list_any};
ghost use Rattle.std.specs.Str.{bytes_eq};
ghost use Rattle.lint_sources.specs.NotModelled as spec;

use rc_parse::is_text;

/// Commands (AOSP, `GetBuiltinFunctionMap` in init's builtins.cpp, Android 10 to 15).
pub const COMMANDS: [&[u8]; 19] = [
    b"class_reset_post_data",
    b"class_start_post_data",
    b"copy_per_line",
    b"enter_default_mount_ns",
    b"exec_reboot_on_failure",
    b"interface_restart",
    b"interface_start",
    b"interface_stop",
    b"load_all_props",
    b"load_exports",
    b"load_system_props",
    b"mount_all",
    b"parse_apex_configs",
    b"perform_apex_config",
    b"readahead",
    b"remount_userdata",
    b"swapoff",
    b"umount_all",
    b"update_linker_config",
];

/// Options of services (AOSP, `GetParserMap` in init's service_parser.cpp, Android 10 to 15).
pub const OPTIONS: [&[u8]; 13] = [
    b"enter_namespace",
    b"gentle_kill",
    b"keycodes",
    b"memcg.limit_in_bytes",
    b"memcg.limit_percent",
    b"memcg.limit_property",
    b"memcg.soft_limit_in_bytes",
    b"memcg.swappiness",
    b"reboot_on_failure",
    b"shared_kallsyms",
    b"sigstop",
    b"stdio_to_kmsg",
    b"updatable",
];

fn is_among(words: &[&[u8]], word: &[u8]) -> bool
    ensures { result ≡ list_any (λ known. bytes_eq known.now word.now) words.now }
{
    words.iter().any(|known| is_text(known, word))
}

/// The bytes of the shortest of these commands.
const LEAST_BYTES: usize = 7;

/// Whether AOSP's init has a command that this machine doesn't model. Most words are too short for one.
#[tactic(auto, using(crate::proofs::Words::short_is_none))]
pub fn is_command_not_modelled(word: &[u8]) -> bool
    ensures { result ≡ spec.is_command_not_modelled word.now }
{
    if word.len() < LEAST_BYTES {
        return false;
    }
    is_among(&COMMANDS, word)
}

/// Whether AOSP's init has an option that this machine doesn't model.
pub fn is_option_not_modelled(word: &[u8]) -> bool
    ensures { result ≡ spec.is_option_not_modelled word.now }
{
    is_among(&OPTIONS, word)
}
