ghost use Rattle.std.specs.Prelude.{◌≡◌, true, Some, MatchOption};
ghost use Rattle.std.specs.Option.{option_map};
ghost use Rattle.names.specs.Names.{elements_of, valid_path, pieces, slash};
ghost use Rattle.names.specs.Paths.{beneath, bytes_before, path_before, parent_of, last_of, stem, deeper, is_beneath, parent_bytes, last_bytes, few_and_short, makeable, PreOrder, NoSlash, LastSlash};

const ROOT: &[u8] = b"/";

// The limits of a path that the server makes: bytes in all, elements, bytes in an element.
const MAX_PATH: usize = 255;

const MAX_ELEMENTS: usize = 16;

const MAX_ELEMENT: usize = 63;

// A path without the slash that stands alone for "/".
fn stem(path: &[u8]) -> &[u8]
    ensures { result.now ≡ stem path.now }
{
    if path == ROOT { &path[..0] } else { path }
}

// Whether a slash and more follows.
fn goes_deeper(rest: &[u8]) -> bool
    ensures { result ≡ deeper (Some rest.now) }
{
    matches!(rest, [b'/', _, ..])
}

// Whether a path has all elements of another, and more.
pub fn is_beneath(above: &[u8], path: &[u8]) -> bool
    ensures bytes { result ≡ is_beneath above.now path.now }
    ensures elements { valid_path above.now ≡ true → valid_path path.now ≡ true → result ≡ beneath (elements_of above.now) (elements_of path.now) }
{
    path.strip_prefix(stem(above)).is_some_and(goes_deeper)
}

// The strict order of bytes.
pub fn bytes_before(a: &[u8], b: &[u8]) -> bool
    ensures { result ≡ bytes_before a.now b.now }
{
    match a.iter().zip(b).find(|(x, y)| x != y) {
        Some((x, y)) => x < y,
        None => a.len() < b.len(),
    }
}

// Whether one path comes before another: a parent first, and what is beneath it before its later siblings.
pub fn path_before(a: &[u8], b: &[u8]) -> bool
    ensures bytes { result ≡ bytes_before a.now b.now }
    ensures elements { valid_path a.now ≡ true → valid_path b.now ≡ true → result ≡ path_before (elements_of a.now) (elements_of b.now) }
    ensures order { PreOrder }
{
    bytes_before(a, b)
}

// The place of the last slash.
fn last_slash(path: &[u8]) -> Option<usize>
    ensures { MatchOption result (NoSlash path.now) (λ at. LastSlash path.now at) }
{
    path.iter().rposition(|b| *b == b'/')
}

// The path of all elements but the last; "/" has none.
pub fn parent(path: &[u8]) -> Option<&[u8]>
    ensures bytes { option_map (λ x. x.now) result ≡ parent_bytes path.now }
    ensures elements { valid_path path.now ≡ true → option_map (λ x. x.now) result ≡ parent_of (elements_of path.now) }
{
    if path == ROOT {
        return None;
    }
    match last_slash(path)? {
        0 => Some(ROOT),
        at => Some(&path[..at]),
    }
}

// The last element; "/" has none.
pub fn last_element(path: &[u8]) -> Option<&[u8]>
    ensures bytes { option_map (λ x. x.now) result ≡ last_bytes path.now }
    ensures elements { valid_path path.now ≡ true → option_map (λ x. x.now) result ≡ last_of (elements_of path.now) }
{
    if path == ROOT {
        return None;
    }
    let at = last_slash(path)?;
    Some(&path[at + 1..])
}

fn is_slash(b: &u8) -> bool
    ensures { result ≡ slash b.now }
{
    *b == b'/'
}

// Whether the elements between slashes are few and short enough.
fn elements_fit(s: &[u8]) -> bool
    ensures { result ≡ few_and_short (pieces slash s.now) }
{
    s.split(is_slash)
        .enumerate()
        .all(|(i, e)| i < MAX_ELEMENTS && e.len() <= MAX_ELEMENT)
}

// Whether the server may make a node at this path.
pub fn is_makeable(path: &[u8]) -> bool
    ensures { result ≡ makeable path.now }
{
    path.len() <= MAX_PATH && (path.len() <= 1 || elements_fit(&path[1..]))
}
