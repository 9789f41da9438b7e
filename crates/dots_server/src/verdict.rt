use installed_filters::Staged;

/// What is decided on a datagram. Beside an accepted entry stand the rows that it installs, so that carrying it out takes no memory.
pub(crate) type Verdict = dots_machine::Verdict<Staged>;
