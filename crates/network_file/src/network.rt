//! What a network file lays down, and why one is refused. Called by most files here, and by the replay and `trace_lines`.
ghost use Rattle.std.specs.Prelude.{◌≡◌, ◌≤◌, ◌++◌, ◌∷◌, ◌+◌, [], length, Ok, Err, IsTrue, ◌↔◌, OnOk, OnErr, IfOk, IfErr, MatchResult};
ghost use Rattle.std.specs.Str.Lines.{lines};
ghost use Rattle.network_file.specs.Networks as networks;

use crate::lines::{Line, read_line};
use crate::plan::channels::Channel;
use crate::plan::declarations::Declaration;
use crate::plan::instructions::{Instruction, NumberedInstruction};
use crate::plan::settings::Setting;
use crate::plan::vias::Via;
use crate::what::What;
use std::alloc::{AllocError, AllocFailed, Global};
use std::marker::Model;
use text_lines::{MAX_LINES, first_line, is_skipped};
use thiserror::Error;

/// What a network file lays down: its declarations and its instructions, each in the order of the file.
#[derive(Debug, Drop)]
pub struct Network {
    version: Option<u8>,
    declared: Vec<Declaration>,
    channels: Vec<Channel>,
    settings: Vec<Setting>,
    vias: Vec<Via>,
    instructions: Vec<NumberedInstruction>,
}

impl Model for Network {
    ghost use Rattle.network_file.specs.Plan.{Plan};

    ghost Value = { Plan };

    ghost view = { λ n. record { version = n.version; declared = n.declared.items; channels = n.channels.items; settings = n.settings.items; vias = n.vias.items; instructions = n.instructions.items } };
}

impl Network {
    ghost use Rattle.std.specs.Prelude.{◌≡◌, [], OnOk, OnErr};
    ghost use Rattle.network_file.specs.Networks.{nothing, with_line};
    ghost use Rattle.network_file.specs.Plan.{version_of, is_untouched, may_declare};

    fn new(alloc: Global) -> Network
        ensures { result ≡ nothing }
    {
        Network {
            version: None,
            declared: Vec::new(alloc),
            channels: Vec::new(alloc),
            settings: Vec::new(alloc),
            vias: Vec::new(alloc),
            instructions: Vec::new(alloc),
        }
    }

    /// The version of the file, 1 to 4: 1 where it doesn't name it.
    pub fn version(&self) -> u8
        ensures { result ≡ version_of self.now }
    {
        self.version.unwrap_or(1)
    }

    /// The declared nodes, in the order of their lines.
    pub fn declared(&self) -> &[Declaration]
        ensures { result.now ≡ self.now.declared }
    {
        &self.declared
    }

    /// The channels.
    pub fn channels(&self) -> &[Channel]
        ensures { result.now ≡ self.now.channels }
    {
        &self.channels
    }

    /// The settings.
    pub fn settings(&self) -> &[Setting]
        ensures { result.now ≡ self.now.settings }
    {
        &self.settings
    }

    /// The ways over repeaters.
    pub fn vias(&self) -> &[Via]
        ensures { result.now ≡ self.now.vias }
    {
        &self.vias
    }

    /// The instructions, in the order of their lines.
    pub fn instructions(&self) -> &[NumberedInstruction]
        ensures { result.now ≡ self.now.instructions }
    {
        &self.instructions
    }

    /// No line has said anything yet.
    pub(crate) fn is_untouched(&self) -> bool
        ensures { result ≡ is_untouched self.now }
    {
        self.version.is_none() && self.declared.is_empty() && self.instructions.is_empty()
    }

    /// Declarations may still come.
    pub(crate) fn may_declare(&self) -> bool
        ensures { result ≡ may_declare self.now }
    {
        self.instructions.is_empty()
    }

    /// Adds what a line says.
    fn add(&mut self, number: u32, line: Line) -> Result<(), AllocError>
        ensures ok { OnOk result (self.new ≡ with_line number line self.old) }
        ensures err { OnErr result (self.new ≡ self.old) }
    {
        match line {
            Line::Version(version) => {
                self.version = Some(version);
                Ok(())
            }
            Line::Node(declaration) => {
                self.declared.push(declaration)?;
                Ok(())
            }
            Line::Channel(channel) => {
                self.channels.push(channel)?;
                Ok(())
            }
            Line::Set(setting) => {
                self.settings.push(setting)?;
                Ok(())
            }
            Line::Via(via) => {
                self.vias.push(via)?;
                Ok(())
            }
            Line::Instruction(instruction) => {
                self.instructions.push(NumberedInstruction {
                    line: number,
                    instruction,
                })?;
                Ok(())
            }
        }
    }
}

/// Why a network file wasn't read.
#[derive(Clone, Copy, Debug, PartialEq, Eq, Error)]
pub enum NetworkRefusal {
    /// The first bad line, counted from 1.
    #[error("line {line}: {what}")]
    BadLine { line: u32, what: What },
    #[error("out of memory")]
    NoMemory,
}

impl From<AllocError> for NetworkRefusal {
    ghost use Rattle.std.specs.Prelude.{◌≡◌};
    ghost use Rattle.network_file.specs.declared.network.NetworkRefusal.TheVariants.{NoMemory};

    ghost from_gives = { λ _ e. e ≡ NoMemory };

    fn from(_: AllocError) -> Self {
        NetworkRefusal::NoMemory
    }
}

impl<T: Drop> From<AllocFailed<T>> for NetworkRefusal {
    ghost use Rattle.std.specs.Prelude.{◌≡◌};
    ghost use Rattle.network_file.specs.declared.network.NetworkRefusal.TheVariants.{NoMemory};

    ghost from_gives = { λ _ e. e ≡ NoMemory };

    fn from(_: AllocFailed<T>) -> Self {
        NetworkRefusal::NoMemory
    }
}

/// The network of a file of at most 1,048,576 bytes, or its first bad line.
#[tactic(auto, unfolding(crate::specs::Networks::network_of))]
pub fn read_network(alloc: Global, bytes: &[u8]) -> Result<Network, NetworkRefusal>
    requires { length bytes.now ≤ 1048576 }
    ensures { MatchResult result (λ n. networks.network_of bytes.now ≡ Ok n)
        (λ e. networks.ReadAs e (networks.network_of bytes.now)) }
{
    let mut network = Network::new(alloc);
    let mut number: u32 = 0;
    let mut rest = bytes;
    while !rest.is_empty() {
        let (line, more) = first_line(rest);
        number += 1;
        take_line(alloc, &mut network, number, line)?;
        rest = more;
    }
    Ok(network)
}

/// Takes in one line of a file.
fn take_line(
    alloc: Global,
    network: &mut Network,
    number: u32,
    line: &[u8],
) -> Result<(), NetworkRefusal>
    ensures ok { OnOk result (networks.after_line number network.old line.now ≡ Ok network.new) }
    ensures few { OnOk result (number ≤ 20000) }
    ensures err { IfErr result (λ e. networks.ReadAs e (networks.after_line number network.old line.now)) }
{
    if number > MAX_LINES {
        return Err(NetworkRefusal::BadLine {
            line: number,
            what: What::Many,
        });
    }
    if is_skipped(line) {
        return Ok(());
    }
    let said = read_line(alloc, network, line)?;
    match said {
        Ok(line) => {
            network.add(number, line)?;
            Ok(())
        }
        Err(what) => Err(NetworkRefusal::BadLine { line: number, what }),
    }
}
