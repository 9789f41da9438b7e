//! A file that has the figures of a server, where its host file asks for it.

ghost use Rattle.std.specs.Prelude.{◌≡◌, option_map, IfOk};
ghost use Rattle.dots_run.specs.FigureFiles.{IsFiguresOf, Refreshes, LooksForFigures, LooksThere, IsFigureFileAt, IsNamedIn};

use dots_edge::{HostFault, WholeFile, figures_in, read_host_file};
use dots_lists::{Bytes, NoMemory};
use dots_server::Server;
use server_figures::figures_text;
use std::alloc::Global;
use std::fs::{File, Files};
use wire_figures::Tally;

/// For how many ticks the figures stay as they are.
const STAYS: u32 = 9;

/// A file of figures.
#[derive(Drop)]
pub struct FigureFile {
    pub file: WholeFile,
    /// How many ticks are passed over before the figures are put there again.
    pub wait: u32,
}

/// What was counted for a server.
#[derive(Clone, Copy)]
pub struct Counts<'a> {
    /// Of the calls of its host.
    pub tally: &'a Tally,
    /// At how many ticks the wall clock was away from the time beside events.
    pub strayed: u64,
}

impl FigureFile {
    /// The one at this path.
    fn at(alloc: Global, path: Option<&str>) -> Result<Option<Self>, NoMemory>
        ensures { IfOk result (IsFigureFileAt (option_map (λ path. path.now) path.entry)) }
    {
        let Some(path) = path else {
            return Ok(None);
        };
        let file = WholeFile::at(alloc, path)?;
        Ok(Some(FigureFile { file, wait: 0 }))
    }

    /// Takes a look at the server: at each tenth tick, and first at the first one, its figures are put there.
    fn look<G: Files<File = File>>(
        &mut self,
        alloc: Global,
        files: &G,
        counts: Counts<'_>,
        server: &Server,
    )
        ensures { LooksForFigures server.now self.old self.new }
    {
        if self.wait > 0 {
            self.wait -= 1;
            return;
        }
        self.wait = STAYS;
        let _ = self.refresh(alloc, files, counts, server);
    }

    /// Puts the figures of the server there. Answers whether they stand there now.
    fn refresh<G: Files<File = File>>(
        &mut self,
        alloc: Global,
        files: &G,
        counts: Counts<'_>,
        server: &Server,
    ) -> Result<bool, NoMemory>
        ensures { Refreshes server.now self.old self.new result }
    {
        let text = text_of(alloc, counts, server)?;
        let put = self.file.put(alloc, files, text.items());
        Ok(put.is_ok())
    }
}

/// The one that the text of a host file names; none where it has a fault.
pub fn figure_file_in(alloc: Global, text: &[u8]) -> Result<Option<FigureFile>, NoMemory>
    ensures { IfOk result (IsNamedIn text.now) }
{
    match read_host_file(alloc, text) {
        Ok(lines) => FigureFile::at(alloc, figures_in(lines.as_slice())),
        Err(HostFault::NoMemory) => Err(NoMemory),
        Err(_) => Ok(None),
    }
}

/// Takes a look at the server for this file, where there is one.
pub fn look_for_figures<G: Files<File = File>>(
    alloc: Global,
    files: &G,
    file: &mut Option<FigureFile>,
    counts: Counts<'_>,
    server: &Server,
)
    ensures { LooksThere server.now file.old file.new }
{
    if let Some(file) = file {
        file.look(alloc, files, counts, server);
    }
}

/// The figures of the server.
fn text_of(alloc: Global, counts: Counts<'_>, server: &Server) -> Result<Bytes, NoMemory>
    ensures { IfOk result (IsFiguresOf server.now) }
{
    figures_text(
        alloc,
        server.settings(),
        server.ledger(),
        counts.tally,
        counts.strayed,
    )
}
