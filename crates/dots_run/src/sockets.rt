//! The top call over real sockets and a real journal.

ghost use Rattle.std.specs.Prelude.{◌≡◌, map, string_bytes, Option, true, IfOk, MatchOption, option_and_then};
ghost use Rattle.std.specs.Fn.{FnReturnsAt};
ghost use Rattle.dots_host.specs.Causes.{Rose};
ghost use Rattle.dots_edge.specs.Edge.{Edge};
ghost use Rattle.dots_machine.specs.Commands.{is_serve, second_of, third_of};
ghost use Rattle.dots_run.specs.OverSockets.{IsHostText, IsOpenedFrom, AreOpenedFrom, outside_at, RunsOver};
ghost use Rattle.dots_run.specs.declared.filter_files.NamedFiles.{NamedFiles};
ghost use Rattle.dots_run.specs.declared.figure_file.FigureFile.{FigureFile};

use crate::blocks::{Ended, run_blocks};
use crate::server_files::ServerFiles;
use crate::words::names_of;
use dots_edge::FileSocketHost;
use dots_host::{Sink, Source, StdSink, StdSource};
use dots_lists::NoMemory;
use dots_script::{Unchecked, read_front};
use std::alloc::Global;
use std::fs::{File, Files};
use std::io::{Read, Write};
use std::net::Net;
use std::time::Clock;
use wire_figures::TallyHost;

/// The exit status where no memory is found.
const NO_MEMORY: u8 = 4;

/// The most bytes that a host file may have.
const MAX_HOST_FILE: usize = 65_536;

/// How much of a host file is read: one byte more than it may have.
const MAX_READ: usize = MAX_HOST_FILE + 1;

/// What is taken in place of a host file that can't be read, or is too long: a line that has none of the forms.
const UNREAD: &[u8] = b"?";

/// What a run of a server is over.
#[derive(Drop)]
pub struct Over<R, G> {
    /// The sockets, the journal and the clock.
    pub host: FileSocketHost<R>,
    /// The files that are kept for other programs.
    pub files: ServerFiles<G>,
}

/// What is left of a run over sockets.
#[derive(Drop)]
pub struct Served<F, K, H> {
    /// The exit status.
    pub status: u8,
    /// The file of the settings.
    pub settings: StdSource<F>,
    /// The host file.
    pub host_file: StdSource<F>,
    /// What it was over: the sockets, the journal and the clock. None where no memory was found to open them.
    pub host: Option<H>,
    /// The sink of the report.
    pub report: StdSink<K>,
}

impl<F: Drop, K: Drop, H: Drop> Served<F, K, H> {
    /// The exit status. All else is let go.
    pub fn into_status(self) -> u8
        ensures { result ≡ self.status }
    {
        self.status
    }
}

/// Does all that the program does with the words `serve SETTINGS HOSTFILE`: `opening` opens both files by their names, the runtime opens
/// the sockets and the journal that the host file names, and what is reported is written to `report`. A file that can't be
/// opened, where `opening` gives None, fails when it is read. In place of a host file that can't be read, or has more than 65,536 bytes, stands one
/// with a fault, over which every call of the host fails. At ticks `files` gets filters and figures where the host file asks for that. Long replies leave
/// in blocks. Status 4 where no memory is found for the host.
pub fn run_sockets<
    F: Read + Drop,
    K: Write + Drop,
    R: Files<File = File> + Net + Clock + Drop,
    G: Files<File = File> + Drop,
    Open: Fn(&str) -> Option<F> + Drop,
>(
    alloc: Global,
    words: &[String],
    opening: Open,
    rt: R,
    files: G,
    report: K,
) -> Served<F, K, Over<R, G>>
    requires opens { Open.IsAlwaysCallable opening }
    requires serves { is_serve (map string_bytes words.now) ≡ true }
    // The two files are what opening the second and the third word gave. Where the host finds no memory, no settings were read and nothing was
    // written; and else the run over the host that the host file's text opens is what `run` says of it. The host tells each event that it handed
    // in and each send that it was handed, and none is a restart, so these are known. What its file holds it doesn't tell. The files of filters that the
    // host file names were handed the filters that stood at each tick, where these weren't the ones handed over last, and the file of figures those
    // of each tenth tick.
    ensures { (file named : Option F) × FnReturnsAt Open.Fn opening (second_of (map string_bytes words.now)) file
        × FnReturnsAt Open.Fn opening (third_of (map string_bytes words.now)) named
        × MatchOption result.host
        ((result.status ≡ 4) × (⟦<StdSource<F> as Source>⟧.left result.settings ≡ option_and_then F.remaining file) × (⟦<StdSource<F> as Source>⟧.faults result.settings ≡ 0)
        × (⟦<StdSink<K> as Sink>⟧.holds result.report ≡ K.contents report) × (⟦<StdSink<K> as Sink>⟧.faults result.report ≡ 0))
        (λ over. (first : Edge) × (files : NamedFiles) × (figures : Option FigureFile) × AreOpenedFrom (option_and_then F.remaining named) (Rose 0 (⟦<StdSource<F> as Source>⟧.faults result.host_file)) first files figures
        × RunsOver (map string_bytes words.now) result.status
        (outside_at (option_and_then F.remaining file) 0 first (K.contents report) 0)
        (outside_at (⟦<StdSource<F> as Source>⟧.left result.settings) (⟦<StdSource<F> as Source>⟧.faults result.settings) over.host (⟦<StdSink<K> as Sink>⟧.holds result.report) (⟦<StdSink<K> as Sink>⟧.faults result.report))
        first over.host files over.files.filters.named figures over.files.figures) }
{
    let (settings, host_file) = names_of(words);
    let mut settings = StdSource::new(opening(settings));
    let mut host_file = StdSource::new(opening(host_file));
    let mut report = StdSink::new(report);
    let Ok((host, files)) = open_both(alloc, rt, files, &mut host_file) else {
        return Served {
            status: NO_MEMORY,
            settings,
            host_file,
            host: None,
            report,
        };
    };
    let mut files = files;
    let Ended { status, host } = run_blocks(
        alloc,
        words,
        &mut settings,
        host,
        &mut report,
        &mut files,
    );
    Served {
        status,
        settings,
        host_file,
        host: Some(Over {
            host: host.into_inner(),
            files,
        }),
        report,
    }
}

/// The host that the text of the host file opens, whose calls are counted, and the files that it names.
fn open_both<F: Read, R: Files<File = File> + Net + Clock + Drop, G: Files<File = File> + Drop>(
    alloc: Global,
    rt: R,
    files: G,
    file: &mut StdSource<F>,
) -> Result<(TallyHost<FileSocketHost<R>>, ServerFiles<G>), NoMemory>
    ensures { IfOk result (λ opened. AreOpenedFrom (⟦<StdSource<F> as Source>⟧.left file.old)
        (Rose (⟦<StdSource<F> as Source>⟧.faults file.old) (⟦<StdSource<F> as Source>⟧.faults file.new)) opened.0.inner opened.1.filters.named opened.1.figures) }
{
    let text = read_text(alloc, file)?;
    let files = ServerFiles::of(alloc, files, text.as_slice())?;
    let host = FileSocketHost::open(alloc, rt, text.as_slice())?;
    match TallyHost::new(alloc, host) {
        Ok(host) => Ok((host, files)),
        Err(_) => Err(NoMemory),
    }
}

/// The host that the text of the host file opens.
pub fn open_host<F: Read, R: Files<File = File> + Net + Clock + Drop>(
    alloc: Global,
    rt: R,
    file: &mut StdSource<F>,
) -> Result<FileSocketHost<R>, NoMemory>
    ensures { IfOk result (IsOpenedFrom (⟦<StdSource<F> as Source>⟧.left file.old)
        (Rose (⟦<StdSource<F> as Source>⟧.faults file.old) (⟦<StdSource<F> as Source>⟧.faults file.new))) }
{
    let text = read_text(alloc, file)?;
    FileSocketHost::open(alloc, rt, text.as_slice())
}

/// The text of the host file, or a line that is none in its place.
fn read_text<F: Read>(alloc: Global, file: &mut StdSource<F>) -> Result<Vec<u8>, NoMemory>
    ensures { IfOk result (λ text. IsHostText (⟦<StdSource<F> as Source>⟧.left file.old)
        (Rose (⟦<StdSource<F> as Source>⟧.faults file.old) (⟦<StdSource<F> as Source>⟧.faults file.new)) text.items) }
{
    match read_front(alloc, file, MAX_READ) {
        Ok(text) => {
            if text.len() <= MAX_HOST_FILE {
                return Ok(text);
            }
            return Ok(Vec::from_slice(alloc, UNREAD)?);
        }
        Err(Unchecked::ReadFailed) => return Ok(Vec::from_slice(alloc, UNREAD)?),
        Err(Unchecked::NoMemory) => return Err(NoMemory),
    }
}
