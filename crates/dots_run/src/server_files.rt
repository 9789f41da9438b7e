//! The files that a server keeps for other programs, where its host file asks for them.

ghost use Rattle.std.specs.Prelude.{IfOk};
ghost use Rattle.dots_run.specs.FilterFiles.{AreNamedIn};
ghost use Rattle.dots_run.specs.FigureFiles.{IsNamedIn};

use crate::figure_file::{Counts, FigureFile, figure_file_in, look_for_figures};
use crate::filter_files::FilterFiles;
use coap_block::BlockHost;
use dots_edge::FileSocketHost;
use dots_lists::NoMemory;
use dots_server::{Onlooker, Server};
use std::alloc::Global;
use std::fs::{File, Files};
use std::net::Net;
use std::time::Clock;
use wire_figures::TallyHost;

/// The host of sockets around which calls are counted, and from which long replies leave in blocks.
type CountedHost<R> = BlockHost<TallyHost<FileSocketHost<R>>>;

/// The files that a host file names.
#[derive(Drop)]
pub struct ServerFiles<G> {
    /// Those of filters, and the file system.
    pub filters: FilterFiles<G>,
    /// That of figures.
    pub figures: Option<FigureFile>,
}

impl<G: Files<File = File> + Drop> ServerFiles<G> {
    /// Those that the text of a host file names; none where it has a fault.
    pub fn of(alloc: Global, files: G, text: &[u8]) -> Result<Self, NoMemory>
        ensures { IfOk result (λ all. AreNamedIn text.now all.filters.named × IsNamedIn text.now all.figures) }
    {
        let figures = figure_file_in(alloc, text)?;
        let filters = FilterFiles::of(alloc, files, text)?;
        Ok(ServerFiles { filters, figures })
    }
}

impl<R: Files<File = File> + Net + Clock + Drop, G: Files<File = File>> Onlooker<CountedHost<R>>
    for ServerFiles<G> {
    ghost use Rattle.dots_run.specs.FilterFiles.{SawAll};
    ghost use Rattle.dots_run.specs.FigureFiles.{SawFigures};
    ghost use Rattle.dots_run.specs.FilterLaws.{saw_none, saw_then, figures_none, figures_then};

    // One look at each of the files for each server, in order.
    ghost sees = { λ old new seen. SawAll old.filters.named new.filters.named seen × SawFigures old.figures new.figures seen };

    ghost sees_none = { λ onlooker. (saw_none onlooker.filters.named, figures_none onlooker.figures) };

    ghost sees_then = { λ old mid new seen more first later. (
      saw_then old.filters.named mid.filters.named new.filters.named seen more first.0 later.0,
      figures_then old.figures mid.figures new.figures seen more first.1 later.1,
    ) };

    fn look(&mut self, host: &CountedHost<R>, server: &Server) {
        self.filters.look_at(server);
        let counted = host.inner();
        let counts = Counts {
            tally: counted.tally(),
            strayed: counted.inner().strayed(),
        };
        let files = &self.filters.files;
        look_for_figures(self.filters.alloc, files, &mut self.figures, counts, server);
    }
}
