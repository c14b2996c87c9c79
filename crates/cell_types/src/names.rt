//! Tables of names.

ghost use Rattle.std.specs.Prelude.{◌≡◌, map};
ghost use Rattle.cell_types.specs.Names.{named, prefixed};
ghost use Rattle.std.specs.List.{list_any};
ghost use Rattle.std.specs.Option.{option_map};
ghost use Rattle.std.specs.Str.{bytes_eq};

/// What the first row with this name names.
pub(crate) fn find_named<K: Copy>(rows: &[(&[u8], K)], name: &[u8]) -> Option<K>
    ensures value { result ≡ named (map (λ row. (row.0.now, row.1)) rows.now) name.now }
{
    for (text, kind) in rows {
        if name == *text {
            return Some(*kind);
        }
    }
    None
}

/// What the first row names that the text begins with, and the text behind it.
pub(crate) fn find_prefixed<'a, K: Copy>(
    rows: &[(&[u8], K)],
    text: &'a [u8],
) -> Option<(K, &'a [u8])>
    ensures value { prefixed (map (λ row. (row.0.now, row.1)) rows.now) text.now
        ≡ option_map (λ found. (found.0, found.1.now)) result }
{
    for (prefix, kind) in rows {
        if let Some(rest) = text.strip_prefix(*prefix) {
            return Some((*kind, rest));
        }
    }
    None
}

/// Whether the name is one of these.
pub(crate) fn is_among(names: &[&[u8]], name: &[u8]) -> bool
    ensures value { result ≡ list_any (λ text. bytes_eq name.now text.now) names.now }
{
    names.iter().any(|text| name == *text)
}
