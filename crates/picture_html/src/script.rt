//! How the page looks, and the script that steps through it.

/// The rules of style. On paper there are no controls, and the picture is as wide as the page.
pub const STYLE: &str = "<style>
body{margin:0;font:16px/1.4 system-ui,Helvetica,Arial,sans-serif;color:#111;background:#fff}
#picture{display:grid;overflow:auto;max-height:58vh;border-bottom:1px solid #bbb}
#picture>svg{display:block;grid-area:1/1}
#names{position:sticky;left:0;pointer-events:none}
#controls{display:flex;gap:8px;align-items:center;padding:8px 12px;border-bottom:1px solid #bbb}
#controls[hidden]{display:none}
#controls button{font-size:18px;min-width:44px;min-height:44px}
#slider{flex:1;min-width:0;height:44px}
#place{white-space:nowrap}
section{padding:4px 12px}
section[hidden]{display:none}
h2{font-size:17px;margin:8px 0}
ul{margin:8px 0;padding-left:20px}
pre{font:14px/1.4 Menlo,Consolas,'DejaVu Sans Mono',monospace;overflow:auto;background:#f4f4f4;padding:8px}
svg.lots .column{cursor:pointer}
svg.lots .column.now{fill:#ffe600;fill-opacity:.28;stroke:#000;stroke-width:1.4}
@media (min-width:1000px){#picture>svg{zoom:1.4}}
@media print{
#controls{display:none}
#picture{overflow:visible;max-height:none;border:0}
#picture>svg{max-width:100%;height:auto;zoom:1}
#names{display:none}
pre{white-space:pre-wrap}
}
</style>
";

/// The script: the slider, the buttons, the arrow keys, `Home` and `End`, and a tap on a column show a line
/// or a turn. Without it the page shows all.
pub const SCRIPT: &str = "<script>
(function () {
  var steps = Array.prototype.slice.call(document.querySelectorAll('section'));
  if (!steps.length) return;
  var picture = document.getElementById('picture');
  var slider = document.getElementById('slider');
  var place = document.getElementById('place');
  var shown = -1;
  function columnOf(at) {
    return document.getElementById('column-' + steps[at].getAttribute('data-line'));
  }
  function bring(column) {
    var inner = column.getBoundingClientRect(), outer = picture.getBoundingClientRect();
    picture.scrollLeft += inner.left - outer.left - (outer.width - inner.width) / 2;
    if (inner.top < outer.top || inner.bottom > outer.bottom) {
      picture.scrollTop += inner.top - outer.top;
    }
  }
  function show(at) {
    at = Math.max(0, Math.min(steps.length - 1, at));
    if (at === shown) return;
    if (shown >= 0) {
      steps[shown].hidden = true;
      columnOf(shown).classList.remove('now');
    }
    shown = at;
    steps[at].hidden = false;
    columnOf(at).classList.add('now');
    bring(columnOf(at));
    slider.value = at;
    place.textContent = (at + 1) + ' of ' + steps.length;
    try {
      history.replaceState(null, '', '#' + steps[at].getAttribute('data-line'));
    } catch (e) {}
  }
  function showLine(line) {
    for (var at = 0; at < steps.length; at += 1) {
      if (steps[at].getAttribute('data-line') === line) { show(at); return; }
    }
    show(document.body.getAttribute('data-opens') === 'last' ? steps.length - 1 : 0);
  }
  steps.forEach(function (step, at) {
    step.hidden = true;
    columnOf(at).addEventListener('click', function () { show(at); });
  });
  document.getElementById('controls').hidden = false;
  slider.addEventListener('input', function () { show(Number(slider.value)); });
  document.getElementById('back').addEventListener('click', function () { show(shown - 1); });
  document.getElementById('on').addEventListener('click', function () { show(shown + 1); });
  document.addEventListener('keydown', function (event) {
    if (event.altKey || event.ctrlKey || event.metaKey) return;
    var to = { ArrowLeft: shown - 1, ArrowRight: shown + 1, Home: 0, End: steps.length - 1 }[event.key];
    if (to === undefined) return;
    event.preventDefault();
    show(to);
  });
  window.addEventListener('hashchange', function () { showLine(location.hash.slice(1)); });
  showLine(location.hash.slice(1));
}());
</script>
";
