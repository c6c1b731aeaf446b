//! A listener takes the items of a KISS stream in, and tells what each carries. Called by `look_cmd`.
use crate::contents::write_contents;
use crate::listing::{add_bad, add_command, add_frame};
use crate::stations::{Stations, is_extended, note_frame};
use ax_frame::{read_frame, read_head};
use kiss_framing::KissItem;
use radio_base::{LinkModulus, M8, M128, Modulus, NoMemory, TextOut};
use std::alloc::Global;
use std::marker::Model;

/// Takes the items of a KISS stream in, one after another, and adds the line of each and what it carries.
#[derive(Drop)]
pub struct Listener {
    alloc: Global,
    /// By which modulus sequence numbers are read, which no frame tells (AX.25 2.2, section 4.2.1). None: as the last
    /// set-up command between two stations says, and modulo 8 before any.
    modulus: Option<LinkModulus>,
    /// The pairs of stations that have them modulo 128.
    extended: Vec<Stations>,
}

impl Model for Listener {
    ghost use Rattle.frame_lines.specs.Hearing.{Listening};

    ghost Value = { Listening };

    ghost view = { λ l. record { modulus = l.modulus; extended = l.extended.items } };
}

impl Listener {
    ghost use Rattle.std.specs.Prelude.{◌≡◌, ◌++◌, [], OnOk};
    ghost use Rattle.ax_frame.specs.Controls.{IsLinkModulus};
    ghost use Rattle.ax_frame.specs.Frames.{read_at, read_head_at};
    ghost use Rattle.frame_lines.specs.Hearing as hearing;
    ghost use Rattle.radio_base.specs.Modulus.{modulus_size};

    /// A listener that has heard nothing. It reads sequence numbers by this modulus; without one, as the last set-up command between two
    /// stations says.
    pub fn new(alloc: Global, modulus: Option<LinkModulus>) -> Listener
        ensures { result ≡ record { modulus = modulus; extended = [] } }
    {
        Listener {
            alloc,
            modulus,
            extended: Vec::new(alloc),
        }
    }

    /// Takes an item in, and adds its line and, below it, the lines of what its frame carries.
    pub fn hear(&mut self, item: &KissItem<'_>, out: &mut TextOut) -> Result<(), NoMemory>
        ensures heard { OnOk result (self.new ≡ (hearing.by_item self.old (hearing.item_of item.now)).0) }
        ensures told { OnOk result (out.new ≡ out.old ++ (hearing.by_item self.old (hearing.item_of item.now)).1) }
    {
        match item {
            KissItem::Frame {
                port,
                command: 0,
                payload,
            } => self.hear_frame(*port, payload, out),
            KissItem::Frame {
                port,
                command,
                payload,
            } => add_command(*port, *command, payload.len(), out),
            KissItem::TooLong => out.text("too long\n"),
        }
    }

    /// Takes the octets of a frame in.
    fn hear_frame(&mut self, port: u8, octets: &[u8], out: &mut TextOut) -> Result<(), NoMemory>
        ensures heard { OnOk result (self.new
            ≡ (hearing.by_read self.old port (read_at (modulus_size (hearing.modulus_for self.old octets.now)) octets.now)).0) }
        ensures told { OnOk result (out.new
            ≡ out.old ++ (hearing.by_read self.old port
            (read_at (modulus_size (hearing.modulus_for self.old octets.now)) octets.now)).1) }
    {
        match self.modulus_for(octets) {
            LinkModulus::Modulo8 => self.hear_as::<M8>(port, octets, out),
            LinkModulus::Modulo128 => self.hear_as::<M128>(port, octets, out),
        }
    }

    /// By which modulus the sequence numbers in the octets of a frame are read.
    fn modulus_for(&self, octets: &[u8]) -> LinkModulus
        ensures { result ≡ hearing.modulus_for self.now octets.now }
    {
        match self.modulus {
            Some(modulus) => modulus,
            None => self.modulus_between(octets),
        }
    }

    /// That of the stations between which the frame goes.
    fn modulus_between(&self, octets: &[u8]) -> LinkModulus
        ensures { result ≡ hearing.by_head (read_head_at octets.now) self.now.extended }
    {
        match read_head(octets) {
            Ok((head, _)) => LinkModulus::extended_if(is_extended(&head, &self.extended)),
            Err(_) => LinkModulus::Modulo8,
        }
    }

    /// Takes the octets of a frame in, with sequence numbers of that modulus.
    fn hear_as<M: Modulus>(
        &mut self,
        port: u8,
        octets: &[u8],
        out: &mut TextOut,
    ) -> Result<(), NoMemory>
        requires { IsLinkModulus M.SIZE }
        ensures heard { OnOk result (self.new ≡ (hearing.by_read self.old port (read_at M.SIZE octets.now)).0) }
        ensures told { OnOk result (out.new
            ≡ out.old ++ (hearing.by_read self.old port (read_at M.SIZE octets.now)).1) }
    {
        match read_frame::<M>(octets) {
            Ok(frame) => {
                note_frame(&frame.head, &frame.control, &mut self.extended)?;
                add_frame(port, &frame, out)?;
                write_contents(self.alloc, &frame, out)?;
                Ok(())
            }
            Err(refusal) => {
                add_bad(port, refusal, out)?;
                Ok(())
            }
        }
    }
}
