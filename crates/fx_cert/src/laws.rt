//! A law of the texts of items.
ghost use Rattle.std.specs.Prelude.{◌≡◌};
ghost use Rattle.fx_cert.specs.declared.item.Item.{Item};
ghost use Rattle.fx_cert.specs.ItemText.{IsItem, item_text};

/// Two different items never have the same text.
pub fn one_text()
    ensures { (a : Item) (b : Item) → IsItem a → IsItem b → item_text a ≡ item_text b → a ≡ b }
{}
