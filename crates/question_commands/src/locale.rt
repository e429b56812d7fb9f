//! What the environment says of the terminal's characters.
use std::env;

/// The variables that name the characters, the strongest first (POSIX, chapter 8.2).
const NAMES: [&str; 3] = ["LC_ALL", "LC_CTYPE", "LANG"];

/// Whether the locale's characters are UTF-8. Where nothing says so, they are not.
pub fn is_utf_8(rt: &HostRuntime) -> bool {
    for name in NAMES {
        if let Ok(value) = env::var(rt, name) {
            if !value.is_empty() {
                return names_utf_8(value.as_str());
            }
        }
    }
    false
}

/// Whether a locale as `en_GB.UTF-8` or `C.utf8` names UTF-8 behind its point.
fn names_utf_8(locale: &str) -> bool {
    let Some((_, charset)) = locale.split_once('.') else {
        return false;
    };
    let charset = match charset.split_once('@') {
        Some((charset, _)) => charset,
        None => charset,
    };
    charset.eq_ignore_ascii_case("UTF-8") || charset.eq_ignore_ascii_case("UTF8")
}
