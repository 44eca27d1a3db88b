//! An interface as the lines of its block so far leave it.

ghost use Rattle.std.specs.Prelude.{◌≡◌, ℕ, List, [], None, Ok, false, unwrap_or};
ghost use Rattle.std.specs.Option.{option_map, option_map_or};
ghost use Rattle.nc_lines.specs.Parts.{Numbered};
ghost use Rattle.nc_read_link.specs.Interfaces.{address_by, shut_by};
ghost use Rattle.nc_read_link.specs.Drafts.{finished, Takes};

use crate::setting::{Setting, read_setting};
use nc_lines::cut::is_indented;
use nc_lines::statement::Reading;
use nc_types::{ConfigFault, IfaceAddr, Interface, Text};

/// What the lines so far have set.
#[derive(Clone, Copy)]
pub(crate) struct Draft {
    // The address in force, with its line.
    address: Option<(u32, IfaceAddr)>,
    shut: bool,
}

impl Draft {
    /// What no line has set.
    pub(crate) fn new() -> Draft
        ensures address { result.address ≡ None }
        ensures shut { result.shut ≡ false }
    {
        Draft {
            address: None,
            shut: false,
        }
    }

    // Lets the interface have what a statement sets.
    fn apply(&mut self, line: u32, setting: Setting)
        ensures address { self.new.address ≡ unwrap_or (address_by line setting) self.old.address }
        ensures shut { self.new.shut ≡ unwrap_or (shut_by setting) self.old.shut }
    {
        match setting {
            Setting::Address(address) => self.address = Some((line, address)),
            Setting::NoAddress => self.address = None,
            Setting::Shut(shut) => self.shut = shut,
        }
    }

    /// One more line, of this number: whether it is a header or a statement.
    ///
    /// # Errors
    ///
    /// The line, where it is faulty.
    pub(crate) fn take(&mut self, line: u32, text: &[u8]) -> Result<bool, ConfigFault>
        ensures { (name before : List ℕ) (block : List Numbered) → Takes name before result self.old self.new (record { line = line; text = text.now }) block }
    {
        if !is_indented(text) {
            return Ok(true);
        }
        match read_setting(text) {
            Reading::Outside => Ok(false),
            Reading::Faulty(cause) => Err(ConfigFault::Bad { line, cause }),
            Reading::Says(setting) => {
                self.apply(line, setting);
                Ok(true)
            }
        }
    }

    // The address in force.
    fn address(&self) -> Option<IfaceAddr>
        ensures { result ≡ option_map (λ p. p.1) self.now.address }
    {
        self.address.map(|a| a.1)
    }

    // The line of the address in force, 0 where there is none.
    fn address_line(&self) -> u32
        ensures { result ≡ option_map_or (λ p. p.0) self.now.address 0 }
    {
        self.address.map_or(0, |a| a.0)
    }

    /// The interface of this name where no line is left.
    #[tactic(auto, unfolding(crate::specs::Drafts::finished))]
    pub(crate) fn finish(self, name: Text) -> Interface
        ensures { (before : List ℕ) → finished name before self [] ≡ Ok (record { interface = result; lines = before }) }
    {
        Interface {
            name,
            address: self.address(),
            address_line: self.address_line(),
            shut: self.shut,
            element: 0,
        }
    }
}
