//! Places on cores, and the ports that are declared there.

ghost use Rattle.std.specs.Prelude.{◌≡◌, ℕ, [], ◌∷◌, ◌+◌, ◌⊎◌, ◌<◌, ◌≤◌, length, IfOk, IfErr, option_map};
ghost use Rattle.xw_words.specs.declared.pos.Pos.{Pos};
ghost use Rattle.xc_tree.specs.declared.token.Kind.TheVariants.{Key};
ghost use Rattle.xc_tree.specs.Derives.{On};
ghost use Rattle.xc_tree.specs.Symbol as symbol;
ghost use Rattle.xc_tree.specs.Trees.{place_of, port_of};
ghost use Rattle.xc_nonterminals.specs.Follows.{OneOf};
ghost use Rattle.xc_nonterminals.specs.PortParts.{port_row};
ghost use Rattle.xc_nonterminals.specs.Reading.{Reads};
ghost use Rattle.xc_nonterminals.specs.RowReading.{ReadsRow, StoppedRow};
ghost use Rattle.xc_nonterminals.specs.declared.stop.Stop.TheVariants as stop;
ghost use Rattle.xc_nonterminals.specs.Stops.{Stopped};

use crate::parser::{Parser, Read};
use crate::stop::Stop;
use crate::tokens::is_word;
use xc_tree::symbols::{BRACKET, COLON, END_BRACKET, EQUALS, SEMICOLON};
use xc_tree::words::{ON_WORD, STDCORE_WORD, TILE_WORD};
use xc_tree::{At, Id, PortItem, TreeDir};
use xw_words::allocation::with_ok;

/// A port without its place: its direction, its name, and what it stands for.
#[derive(Drop)]
struct Port {
    dir: TreeDir,
    name: Id,
    ident: Id,
}

impl<'a> Parser<'a> {
    /// The declaration of a port.
    pub fn portdecl(&self, at: usize, room: u32) -> Result<Read<PortItem>, Stop>
        requires at { at ≤ length self.now.toks.now }
        ensures bounds { IfOk result (λ r. (at < r.end) × (r.end ≤ length self.now.toks.now)) }
        ensures read { IfOk result
            (λ r. Reads self.now.toks.now room symbol.portdecl at r.end (port_of r.value)) }
        ensures stopped { IfErr result (λ e. Stopped self.now.toks.now room symbol.portdecl at e) }
    {
        let place = self.maybe_place(at, room)?;
        let (place, port) = with_ok(place.value, self.port(place.end))?;
        let Port { dir, name, ident } = port.value;
        Ok(Read {
            value: PortItem {
                place,
                dir,
                name,
                ident,
            },
            end: port.end,
        })
    }

    /// A port with its names, and the `;` behind it.
    fn port(&self, at: usize) -> Result<Read<Port>, Stop>
        requires at { at ≤ length self.now.toks.now }
        ensures bounds { IfOk result (λ r. (at < r.end) × (r.end ≤ length self.now.toks.now)) }
        ensures read { IfOk result (λ r.
            (p : Pos) × (q : Pos) × ((room : ℕ) → ReadsRow self.now.toks.now room port_row at r.end
            (r.value.dir, (r.value.name, (p, (r.value.ident, (q, tt))))))) }
        ensures stopped { IfErr result
            (λ e. (room : ℕ) → StoppedRow self.now.toks.now room port_row at e) }
    {
        let dir = self.dir(at)?;
        let first = self.id(dir.end)?;
        let name = self.closed(first, EQUALS)?;
        let second = self.id(name.end)?;
        let ident = self.closed(second, SEMICOLON)?;
        Ok(Read {
            value: Port {
                dir: dir.value,
                name: name.value,
                ident: ident.value,
            },
            end: ident.end,
        })
    }

    /// A place on a core, or none.
    pub fn maybe_place(&self, at: usize, room: u32) -> Result<Read<Option<At>>, Stop>
        requires at { at ≤ length self.now.toks.now }
        ensures bounds { IfOk result (λ r. (at ≤ r.end) × (r.end ≤ length self.now.toks.now)) }
        ensures read { IfOk result (λ r. Reads self.now.toks.now room
            (symbol.maybe symbol.place) at r.end (option_map place_of r.value)) }
        ensures stopped { IfErr result
            (λ e. Stopped self.now.toks.now room (symbol.maybe symbol.place) at e) }
    {
        if !is_word(self.toks, at, ON_WORD) {
            return Ok(Read {
                value: None,
                end: at,
            });
        }
        let place = self.place(at, room)?;
        Ok(Read {
            value: Some(place.value),
            end: place.end,
        })
    }

    /// A place on a core.
    pub fn place(&self, at: usize, room: u32) -> Result<Read<At>, Stop>
        requires at { at ≤ length self.now.toks.now }
        ensures bounds { IfOk result (λ r. (at < r.end) × (r.end ≤ length self.now.toks.now)) }
        ensures read { IfOk result
            (λ r. Reads self.now.toks.now room symbol.place at r.end (place_of r.value)) }
        ensures stopped { IfErr result (λ e. Stopped self.now.toks.now room symbol.place at e) }
    {
        let on = self.word(at, ON_WORD)?;
        let core = self.core_word(on.end)?;
        let open = self.symbol(core.end, BRACKET)?;
        let value = self.place_value(open.end, room)?;
        let close = self.closed(value, END_BRACKET)?;
        let colon = self.closed(close, COLON)?;
        Ok(Read {
            value: At {
                on: on.value,
                first: colon.value.first,
                value: colon.value.value,
            },
            end: colon.end,
        })
    }

    /// `stdcore` or `tile`.
    fn core_word(&self, at: usize) -> Result<Read<u8>, Stop>
        ensures bounds { IfOk result (λ r. (r.end ≡ at + 1) × (r.end ≤ length self.now.toks.now)) }
        ensures read { IfOk result (λ r. ((r.value ≡ 22) ⊎ (r.value ≡ 23))
            × ((p : Pos) × On self.now.toks.now at (Key r.value) p)) }
        ensures stopped { IfErr result (λ e. (e ≡ stop.Wrong at)
            × (OneOf self.now.toks.now at (symbol.key 22 ∷ symbol.key 23 ∷ []) → ⊥)) }
    {
        if is_word(self.toks, at, STDCORE_WORD) {
            return Ok(Read {
                value: STDCORE_WORD,
                end: at + 1,
            });
        }
        if is_word(self.toks, at, TILE_WORD) {
            return Ok(Read {
                value: TILE_WORD,
                end: at + 1,
            });
        }
        Err(Stop::Wrong(at))
    }
}
