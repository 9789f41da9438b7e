/// What is told without serving.
#[derive(Clone, Copy)]
pub enum Topic {
    /// What a settings file comes to, or its first fault and why it is one.
    Settings,
    /// How many events a script has, or its first fault and why it is one.
    Script,
    /// How the program is called.
    Usage,
    /// The version of the program, and the logic that it is proved with.
    Version,
    /// The report of the generated run of this number, of 1 to 1,000.
    Load(u64),
}
