//! What the lines so far have said.

ghost use Rattle.std.specs.Prelude.{◌≡◌, OnOk};
ghost use Rattle.ask_agent.specs.SettingsSaid.{is_front, is_complete, may_ask, is_none_after, may_follow, settings_by};
ghost use Rattle.ask_agent.specs.Admitting.{admitted, no_lines};

use crate::line::Line;
use crate::planned::{MAX_ASKS, Planned};
use crate::settings::AskSettings;
use dots_client::Ask;
use dots_lists::{List, Name, NoMemory};
use std::alloc::Global;

/// What the lines so far have said.
#[derive(Drop)]
pub struct Draft {
    pub server: Option<u32>,
    pub cuid: Option<Name>,
    pub mid: Option<u32>,
    pub number: Option<u64>,
    pub asks: List<Planned>,
}

impl Draft {
    /// What no line has said. Takes no memory.
    pub fn new(alloc: Global) -> Self
        ensures { result ≡ no_lines }
    {
        Draft {
            server: None,
            cuid: None,
            mid: None,
            number: None,
            asks: List::new(alloc),
        }
    }

    /// Whether the line may stand behind those that have said this.
    pub fn may_follow(&self, line: &Line) -> bool
        ensures { result ≡ may_follow self.now line.now }
    {
        match line {
            Line::Server { .. } => self.is_front() && self.server.is_none(),
            Line::Cuid { .. } => self.is_front() && self.cuid.is_none(),
            Line::Mid { .. } => self.is_front() && self.mid.is_none(),
            Line::Number { .. } => self.is_front() && self.number.is_none(),
            Line::At { at, .. } => self.may_ask(*at),
        }
    }

    /// Adds what a line says.
    pub fn admit(&mut self, line: Line) -> Result<(), NoMemory>
        ensures { OnOk result (self.new ≡ admitted self.old line) }
    {
        match line {
            Line::Server { peer } => self.server = Some(peer),
            Line::Cuid { name } => self.cuid = Some(name),
            Line::Mid { mid } => self.mid = Some(mid),
            Line::Number { number } => self.number = Some(number),
            Line::At { at, ask } => return self.asks.push(Planned { at, ask }),
        }
        Ok(())
    }

    /// The settings, where nothing is missing. Takes no memory.
    pub fn finish(self) -> Option<AskSettings>
        ensures { result ≡ settings_by self }
    {
        let server = self.server?;
        let cuid = self.cuid?;
        Some(AskSettings {
            server,
            cuid,
            mid: self.mid,
            number: self.number,
            asks: self.asks,
        })
    }

    fn is_front(&self) -> bool
        ensures { result ≡ is_front self.now }
    {
        self.asks.items().is_empty()
    }

    fn is_complete(&self) -> bool
        ensures { result ≡ is_complete self.now }
    {
        self.server.is_some() && self.cuid.is_some()
    }

    /// Whether one more may be asked, at this time.
    fn may_ask(&self, at: u64) -> bool
        ensures { result ≡ may_ask self.now at }
    {
        self.is_complete() && self.asks.items().len() < MAX_ASKS && self.is_none_after(at)
    }

    /// Whether nothing is asked at a later time.
    fn is_none_after(&self, at: u64) -> bool
        ensures { result ≡ is_none_after self.now at }
    {
        self.asks.items().iter().all(|planned| planned.at <= at)
    }
}
