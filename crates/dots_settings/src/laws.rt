//! What the definitions come to: the contract is a law, and the body does nothing.

ghost use Rattle.std.specs.Prelude.{◌≡◌, ℕ, List};
ghost use Rattle.dots_settings.specs.declared.fault.SettingsFault.{SettingsFault};
ghost use Rattle.dots_settings.specs.File.{SettingsAre, SettingsFail};
ghost use Rattle.dots_settings.specs.Settings.{SettingsValue, IsSettings};

/// A settings file gives one value of settings at most, and is at one fault at most. It never gives settings and is at
/// fault too, and it isn't neither.
pub fn settings_or_fault()
    ensures settings { (file : List ℕ) (one other : SettingsValue)
        → SettingsAre file one → SettingsAre file other → one ≡ other }
    ensures fault { (file : List ℕ) (one other : SettingsFault)
        → SettingsFail file one → SettingsFail file other → one ≡ other }
    ensures both { (file : List ℕ) (settings : SettingsValue) (fault : SettingsFault)
        → SettingsAre file settings → ¬ (SettingsFail file fault) }
    ensures neither { (file : List ℕ) → ((settings : SettingsValue) → ¬ (SettingsAre file settings))
        → ¬ ((fault : SettingsFault) → ¬ (SettingsFail file fault)) }
{}

/// The settings of a file are within every limit, and nothing stands in them twice.
pub fn settings_are_whole()
    ensures { (file : List ℕ) (settings : SettingsValue) → SettingsAre file settings → IsSettings settings }
{}
