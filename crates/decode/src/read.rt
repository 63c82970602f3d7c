ghost use Rattle.std.specs.Prelude.{◌≡◌, ◌<◌, MatchResult};
ghost use Rattle.bundle.specs.Format.{body};
ghost use Rattle.bundle.specs.Bodies.{bundle_bytes, bundle_header};
ghost use Rattle.std.specs.Result.{result_err};
ghost use Rattle.decode.specs.Decode.{parts_of, design_refusal, decoded};
ghost use Rattle.decode.specs.Holds.{parts_in};
ghost use Rattle.design.specs.Views.{core};

use crate::bodies::Bodies;
use crate::decode::read_tables;
use bundle::{Body, Bundle, Refusal};
use design::Design;

// The stretch of one of the seven bodies.
fn stretch<'a>(bundle: &Bundle<'a>, row: usize) -> &'a [u8]
    requires { row < 7 }
    ensures { result.now ≡ body (bundle_bytes bundle.now) row }
{
    match bundle.body(row) {
        Some(
            Body::Cells(b)
            | Body::Nets(b)
            | Body::Rom(b)
            | Body::Ram(b)
            | Body::Wires(b)
            | Body::Pilots(b)
            | Body::Starts(b)
            | Body::Skipped(b),
        ) => b,
        None => unreachable(),
    }
}

// The bodies of an opened bundle that a design is read from.
// Why by number: a `let` that matches all seven by their kinds, else `unreachable()`, was tried; its goal of fourteen cases was not closed.
fn bodies<'a>(bundle: &Bundle<'a>) -> Bodies<'a>
    ensures { parts_in (bundle_header bundle.now) result ≡ parts_of (bundle_bytes bundle.now) }
{
    Bodies {
        cells: stretch(bundle, 0),
        nets: stretch(bundle, 1),
        rom: stretch(bundle, 2),
        ram: stretch(bundle, 3),
        wires: stretch(bundle, 4),
        pilots: stretch(bundle, 5),
        starts: stretch(bundle, 6),
    }
}

// Reads a bundle into a design: what its bytes stand for, or why they are refused. A refusal leaves the design as it was.
pub fn read_design(design: &mut Design, bytes: &[u8]) -> Result<(), Refusal>
    ensures refusal { result_err result ≡ design_refusal bytes.now }
    ensures tables { MatchResult result (λ _. core design.new ≡ decoded bytes.now) (λ _. design.new ≡ design.old) }
{
    let bundle = Bundle::open(bytes)?;
    // Read into a copy, since a refusal leaves the design as it was.
    let mut tables = design.tables;
    read_tables(&mut tables, bundle.header(), bodies(&bundle))?;
    *design = Design { tables };
    Ok(())
}
