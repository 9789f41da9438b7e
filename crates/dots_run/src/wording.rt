//! The texts that no file decides.

ghost use Rattle.std.specs.Prelude.{◌≡◌};
ghost use Rattle.dots_run.specs.Usage.{usage_text, version_text};

/// How the program is called: the commands, what an exit status means and what to do then, and where the documents are.
#[tactic(auto, unfolding(crate::specs::Usage::usage_text))]
pub fn usage() -> &'static [u8]
    ensures { result.now ≡ usage_text }
{
    b"\
dots replay SETTINGS   serves a script of datagrams, which it reads from standard input: prints the replies, and at the
                       end the filters that stand
dots serve SETTINGS HOSTFILE
                       serves what comes to the sockets that a host file names, and keeps the journal in a file
dots gateway SETTINGS HOSTFILE
                       passes the requests of the settings' clients on to their upstream, over the sockets that a host file
                       names, and what is answered back: prints at the end how many wait
dots ask SETTINGS HOSTFILE
                       asks a server for what the settings of a client say, over the sockets that a host file names:
                       prints at the end what is granted
dots protect HOSTFILE SERVER NAME LIFETIME PREFIXES
                       asks the server once, as the client NAME, for filtering of PREFIXES during LIFETIME seconds: prints
                       what it answers, and ends
dots show HEX          prints the CoAP message that bytes in hexadecimal spell
dots check SETTINGS    prints what a settings file comes to, or its first fault and why it is one
dots check SETTINGS HOSTFILE
                       prints what both files and the journal come to, and what a server would refuse
dots check-ask SETTINGS
                       prints what the settings of a client come to, or the line at fault
dots journal SETTINGS HOSTFILE
                       prints the entries of the journal that a host file names
dots filters SETTINGS HOSTFILE
                       prints the filters of that journal, also while a server runs, as the lines of a report
dots filters SETTINGS HOSTFILE nft
                       prints them as a script for nft -f
dots migrate OLD NEW HOSTFILE NEWJOURNAL
                       writes what counts of the journal that a host file names, of the settings OLD, to a new file, as that of
                       the settings NEW: prints what is left out, and why; with dry behind it writes nothing
dots check-script      reads a script from standard input: prints how many events it has, or its first fault, and why
dots load N            serves 20,000 events that the number N, of 1 to 1,000, generates, over a host in memory: prints
                       eight counts, the same for the same N
dots help              prints this
dots version           prints the version of the program, and the logic that it is proved with

SETTINGS is a file that names domains, their prefixes, and the peers that may ask for them. docs/PROTOCOL.md has its
lines, those of a script, and what is printed; docs/OPERATING.md has those of a host file. README.md begins with an
example:

    ./dots replay examples/one-filter/settings < examples/one-filter/script

The exit status, and what to do:
  0   all went well
  1   show: the bytes spell no message. What is printed names the first fault: mend the bytes there
  2   the words are no command: take a line from above
  3   the settings, or what is checked, have a fault. What is printed names it; dots check SETTINGS says why a line of
      the settings is one
  4   no memory was found: free some, and begin again
  5   the settings or the script can't be read, or a line is no script line: dots check-script says which, and why.
      With serve, gateway, ask and protect: the settings can't be read, or the sockets failed; with the last two also what
      6 says of the host file
  6   a call of the disk failed. What was answered is on it: see what it lacks, and begin again. With serve and gateway
      also: the host file can't be read or has a fault, a socket can't be bound, or another program has the journal: dots
      check SETTINGS HOSTFILE names what it can see
  7   the disk holds something that isn't a journal of this program. What is printed is the first such place
  8   the journal was written under other settings, and the digests of both are printed: take those again
  9   standard output can't be written: look where it goes
  10  the disk is smaller than the settings need. What is printed has both sizes, in bytes
  11  no end came within 2^40 events or lines: cut the script, or begin again
  12  protect: the server refused it, with the code that is printed. docs/OPERATING.md says what to do then
  13  protect: no answer came within a minute: ask again, and see whether the server runs and is reached
  70  the program isn't built yet, and can't be built: what stands above says why
"
}

/// The version of the program, and the logic that it is proved with.
#[tactic(auto, unfolding(crate::specs::Usage::version_text))]
pub fn version() -> &'static [u8]
    ensures { result.now ≡ version_text }
{
    b"dots 0.1\nlogic dac8208d650f15bf\n"
}
