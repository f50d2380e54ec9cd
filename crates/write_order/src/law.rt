ghost use Rattle.std.specs.Prelude.{◌≡◌, true, false};
ghost use Rattle.ds_base.specs.declared.names.PageId.{PageId};
ghost use Rattle.write_order.specs.declared.key.WriteKey.{WriteKey};
ghost use Rattle.write_order.specs.Keys.{is_before};

/// The order is strict, and of two pages one is written before the other.
pub fn orders_pages()
    ensures strict { (a b : WriteKey) → is_before a b ≡ true → is_before b a ≡ false }
    ensures transitive { (a b c : WriteKey) → is_before a b ≡ true → is_before b c ≡ true → is_before a c ≡ true }
    ensures total { (a b : WriteKey) → is_before a b ≡ false → is_before b a ≡ false → a.page ≡ b.page }
{}
