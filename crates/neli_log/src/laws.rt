//! Laws of routes and spans. The functions do nothing: their contracts are the laws.

ghost use Rattle.neli_log.specs.declared.entry.Route.{Route as Way};
ghost use Rattle.neli_log.specs.declared.span.Span.{Span as Part};
ghost use Rattle.std.specs.Bool.{Decides};
ghost use Rattle.std.specs.Prelude.{◌≡◌};

use crate::{Route, Span};

/// `==` of routes is true exactly if both are the same.
pub fn equality_of_routes()
    ensures { (a b : Way) → Decides (⟦<Route as PartialEq>⟧.eq a b) (a ≡ b) }
{}

/// `==` of spans is true exactly if both name the same bytes of the same datagram.
pub fn equality_of_spans()
    ensures { (a b : Part) → Decides (⟦<Span as PartialEq>⟧.eq a b) (a ≡ b) }
{}
