//! Files that have the filters of a server, where its host file asks for them.

ghost use Rattle.std.specs.Prelude.{◌≡◌, option_map, IfOk};
ghost use Rattle.dots_run.specs.FilterFiles.{IsShownOf, IsTextOf, IsFileFor, AreNamedIn, LooksAt, LooksAtBoth, Refreshes, has_last};

use dots_edge::{HostFault, WholeFile, filters_in, filters_nft_in, read_host_file};
use dots_lists::{Bytes, NoMemory};
use dots_server::{Onlooker, Server};
use host_checks::{FilterForm, Shown, script_of};
use std::alloc::Global;
use std::fs::{File, Files};

/// A file of filters, in one form.
#[derive(Drop)]
pub struct FilterFile {
    pub file: WholeFile,
    pub form: FilterForm,
    /// The filters that were put there last; None where none were since the start.
    pub last: Option<Shown>,
}

/// What came of a look at a server.
#[derive(Clone, Copy)]
pub enum Refreshed {
    /// The filters were put there last.
    Same,
    /// They stand there now.
    Put,
    /// The file system failed.
    Failed,
}

/// The files of filters that a host file names.
#[derive(Drop)]
pub struct NamedFiles {
    /// The one that has them as lines of a report.
    pub report: Option<FilterFile>,
    /// The one that has them as a script for `nft -f`.
    pub script: Option<FilterFile>,
}

/// The files of filters that a host file names. At each tick, and so first behind a start, those are written whose filters differ from the ones
/// that were put there last. Where memory or the file system failed, the next tick tries again.
#[derive(Drop)]
pub struct FilterFiles<G> {
    pub alloc: Global,
    pub files: G,
    pub named: NamedFiles,
}

impl<G: Files<File = File> + Drop> FilterFiles<G> {
    /// Those that the text of a host file names; none where it has a fault.
    pub fn of(alloc: Global, files: G, text: &[u8]) -> Result<Self, NoMemory>
        ensures { IfOk result (λ files. AreNamedIn text.now files.named) }
    {
        let named = NamedFiles::of(alloc, text)?;
        Ok(FilterFiles {
            alloc,
            files,
            named,
        })
    }
}

impl<H, G: Files<File = File>> Onlooker<H> for FilterFiles<G> {
    ghost use Rattle.dots_run.specs.FilterFiles.{SawAll};
    ghost use Rattle.dots_run.specs.FilterLaws.{saw_none, saw_then};

    // One look at each of the files for each server, in order.
    ghost sees = { λ old new seen. SawAll old.named new.named seen };

    ghost sees_none = { λ onlooker. saw_none onlooker.named };

    ghost sees_then = { λ old mid new seen more. saw_then old.named mid.named new.named seen more };

    fn look(&mut self, _host: &H, server: &Server) {
        self.look_at(server);
    }
}

impl<G: Files<File = File>> FilterFiles<G> {
    /// Takes a look at the server, for each of them.
    pub fn look_at(&mut self, server: &Server)
        ensures looks { LooksAtBoth server.now self.old.named self.new.named }
        ensures files { self.new.files ≡ self.old.files }
    {
        self.named.look(self.alloc, &self.files, server);
    }
}

impl NamedFiles {
    /// Those that the text of a host file names.
    fn of(alloc: Global, text: &[u8]) -> Result<Self, NoMemory>
        ensures { IfOk result (AreNamedIn text.now) }
    {
        let lines = match read_host_file(alloc, text) {
            Ok(lines) => lines,
            Err(HostFault::NoMemory) => return Err(NoMemory),
            Err(_) => {
                return Ok(NamedFiles {
                    report: None,
                    script: None,
                });
            }
        };
        let report = FilterFile::at(alloc, filters_in(lines.as_slice()), FilterForm::Report)?;
        let script = FilterFile::at(alloc, filters_nft_in(lines.as_slice()), FilterForm::Script)?;
        Ok(NamedFiles { report, script })
    }

    /// Takes a look at the server, for each of them.
    fn look<G: Files<File = File>>(&mut self, alloc: Global, files: &G, server: &Server)
        ensures { LooksAtBoth server.now self.old self.new }
    {
        look_for(alloc, files, &mut self.report, server);
        look_for(alloc, files, &mut self.script, server);
    }
}

/// Takes a look at the server for this file, where there is one.
fn look_for<G: Files<File = File>>(
    alloc: Global,
    files: &G,
    file: &mut Option<FilterFile>,
    server: &Server,
)
    ensures { LooksAt server.now file.old file.new }
{
    if let Some(file) = file {
        let _ = file.refresh(alloc, files, server);
    }
}

impl FilterFile {
    /// The file at this path.
    fn at(alloc: Global, path: Option<&str>, form: FilterForm) -> Result<Option<Self>, NoMemory>
        ensures { IfOk result (IsFileFor form (option_map (λ path. path.now) path.entry)) }
    {
        let Some(path) = path else {
            return Ok(None);
        };
        let file = WholeFile::at(alloc, path)?;
        Ok(Some(FilterFile {
            file,
            form,
            last: None,
        }))
    }

    /// Puts the filters of the server there, where they aren't those that were put there last.
    fn refresh<G: Files<File = File>>(
        &mut self,
        alloc: Global,
        files: &G,
        server: &Server,
    ) -> Result<Refreshed, NoMemory>
        ensures { Refreshes server.now self.old self.new result }
    {
        let shown = shown_of(alloc, server)?;
        if self.has_last(&shown) {
            return Ok(Refreshed::Same);
        }
        let text = text_of(alloc, self.form, server, &shown)?;
        match self.file.put(alloc, files, text.items()) {
            Ok(()) => {
                self.last = Some(shown);
                Ok(Refreshed::Put)
            }
            Err(_) => Ok(Refreshed::Failed),
        }
    }

    /// Whether these filters were put there last.
    fn has_last(&self, shown: &Shown) -> bool
        ensures { result ≡ has_last self.now shown.now }
    {
        match &self.last {
            Some(last) => last.has_same(self.form, shown),
            None => false,
        }
    }
}

/// The filters of the server.
fn shown_of(alloc: Global, server: &Server) -> Result<Shown, NoMemory>
    ensures { IfOk result (IsShownOf server.now) }
{
    Shown::of(alloc, server.settings(), server.registry())
}

/// The text of these filters of the server, in this form.
fn text_of(
    alloc: Global,
    form: FilterForm,
    server: &Server,
    shown: &Shown,
) -> Result<Bytes, NoMemory>
    requires { IsShownOf server.now shown.now }
    ensures { IfOk result (IsTextOf form server.now) }
{
    match form {
        FilterForm::Report => shown.report.copy(),
        FilterForm::Script => script_of(alloc, server.settings(), server.registry()),
    }
}
