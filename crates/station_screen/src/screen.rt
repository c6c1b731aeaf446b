//! The screen of a trial. Called by the trial.
ghost use Rattle.std.specs.Prelude.{◌≡◌, ◌<◌, OnOk};
ghost use Rattle.std.specs.Fmt.{decimal};
ghost use Rattle.station_screen.specs.Screens as screens;
ghost use Rattle.station_screen.specs.Standing.{ScreenGoes, ScreenStands};

use frame_lines::add_item;
use kiss_framing::KissItem;
use radio_base::{M8, M128, NoMemory, TextOut};
use station_ports::PortFrame;
use std::alloc::Global;
use std::marker::Model;

/// What a trial shows: lines, each behind the number of its station where there are several. A line of a console stays open until its CR,
/// and what another station shows ends it.
#[derive(Drop)]
pub struct Screen {
    alloc: Global,
    numbers: bool,
    /// The place of the station whose line hasn't ended.
    unended: Option<usize>,
    text: TextOut,
}

impl Model for Screen {
    ghost use Rattle.station_screen.specs.Standing.{Kept, view_of};

    ghost Value = { Kept };

    ghost view = { λ s. view_of s.numbers s.unended s.text };
}

impl Screen {
    /// Nothing is shown yet.
    pub fn new(alloc: Global, numbers: bool) -> Screen
        ensures { ScreenStands result (screens.new_shown numbers) }
    {
        Screen {
            alloc,
            numbers,
            unended: None,
            text: TextOut::new(alloc),
        }
    }

    /// What is shown since this was called last.
    pub fn take_text(&mut self) -> TextOut
        ensures text { result ≡ self.old.text }
        ensures goes { ScreenGoes screens.taken self.old self.new }
    {
        std::mem::replace(&mut self.text, TextOut::new(self.alloc))
    }

    /// What the console of a station is told. There are at most 8 stations.
    pub fn tell(&mut self, station: usize, told: &[u8]) -> Result<(), NoMemory>
        requires { station < 8 }
        ensures { OnOk result (ScreenGoes (screens.tell station told.now) self.old self.new) }
    {
        for byte in told {
            self.tell_byte(station, *byte)?;
        }
        Ok(())
    }

    fn tell_byte(&mut self, station: usize, byte: u8) -> Result<(), NoMemory>
        requires { station < 8 }
        ensures { OnOk result (ScreenGoes (screens.tell_byte station byte) self.old self.new) }
    {
        self.need_line(station)?;
        if byte == b'\r' {
            self.end_line()?;
            Ok(())
        } else {
            self.add(&[byte])?;
            Ok(())
        }
    }

    /// A frame that a station sends: its line, with the number of its port, from 1.
    pub fn show(&mut self, station: usize, frame: &PortFrame) -> Result<(), NoMemory>
        requires { station < 8 }
        ensures { OnOk result (ScreenGoes (screens.show station frame.now) self.old self.new) }
    {
        self.end_line()?;
        self.begin_line(station)?;
        self.add_frame(frame)?;
        Ok(())
    }

    fn add_frame(&mut self, frame: &PortFrame) -> Result<(), NoMemory>
        ensures { OnOk result (ScreenGoes (screens.add (screens.line_of frame.now)) self.old self.new) }
    {
        let item = KissItem::Frame {
            port: frame.port.saturating_add(1),
            command: 0,
            payload: frame.octets.as_slice(),
        };
        if frame.is_extended {
            add_item::<M128>(&item, &mut self.text)?;
            Ok(())
        } else {
            add_item::<M8>(&item, &mut self.text)?;
            Ok(())
        }
    }

    /// An open line is ended.
    pub fn end_line(&mut self) -> Result<(), NoMemory>
        ensures { OnOk result (ScreenGoes screens.end_line self.old self.new) }
    {
        if self.unended.is_some() {
            self.add(b"\n")?;
            self.unended = None;
        }
        Ok(())
    }

    /// The line of a station is open.
    fn need_line(&mut self, station: usize) -> Result<(), NoMemory>
        requires { station < 8 }
        ensures { OnOk result (ScreenGoes (screens.need_line station) self.old self.new) }
    {
        if self.is_at(station) {
            return Ok(());
        }
        self.end_line()?;
        self.begin_line(station)?;
        self.unended = Some(station);
        Ok(())
    }

    fn is_at(&self, station: usize) -> bool
        ensures { result ≡ screens.is_at station self.now.unended }
    {
        match self.unended {
            Some(at) => at == station,
            None => false,
        }
    }

    /// The number of a station, from 1, where there are several.
    fn begin_line(&mut self, station: usize) -> Result<(), NoMemory>
        requires { station < 8 }
        ensures { OnOk result (ScreenGoes (screens.begin_line station) self.old self.new) }
    {
        if self.numbers {
            self.add_number(station as u64 + 1)?;
            self.add(b": ")?;
        }
        Ok(())
    }

    fn add_number(&mut self, number: u64) -> Result<(), NoMemory>
        ensures { OnOk result (ScreenGoes (screens.add (screens.Bytes (decimal number))) self.old self.new) }
    {
        self.text.number(number)?;
        Ok(())
    }

    fn add(&mut self, octets: &[u8]) -> Result<(), NoMemory>
        ensures { OnOk result (ScreenGoes (screens.add (screens.Bytes octets.now)) self.old self.new) }
    {
        self.text.octets(octets)?;
        Ok(())
    }
}
